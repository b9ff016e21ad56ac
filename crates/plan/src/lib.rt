// The plan of a walk: what does not change from state to state, worked out once for a design. Of each row its partner, the row of its
// action in the other process; whether it is internal; how many of its sum values need a look, one where nothing that is looked at reads
// the sum value; whether its condition reads it; how many conjuncts in front of its condition do not, so that a row that these rule out
// costs no more; where its mark stands, and whether that reads the sum value; and its risk, what could leave it without a value. Then the
// risk of invariant, mapping and measure together, and whether all risks are nothing. What each function computes is in specs/Plan. Every
// function answers any arrays.
#![tactic(auto)]

ghost use Rattle.std.specs.Prelude.{◌≡◌, ◌<◌, drop};
ghost use Rattle.design.specs.Line.{row_of};
ghost use Rattle.row_plan.specs.RowPlan.{no_mark, risk_stored, stored, Blank};
ghost use Rattle.marks.specs.Marks.{place_from};
ghost use Rattle.plan.specs.Plan.{values_free, frees_of, partner_free, looks_of, mark_in, mark_there, row_plan_of, row_plan_in, there_in, row_plan_for, values_risk, risk_of, mark_risk, risk_in, risk_for, kinds_risk, plan_in};

use design::{Process, Shape};
use layout::Lent;
use row_plan::{Mark, RowPlan};

// As many rows as a process may have, and as many numbers as a plan.
const ROWS: usize = row_plan::ROWS;

pub const LENGTH: usize = row_plan::LENGTH;

// ---- what reads the sum value

// Whether n values from a place on do not read the sum value.
fn values_free(fields: &limits::Fields, at: usize, n: u8) -> bool
    ensures { result ≡ values_free fields.now at n }
{
    let mut place = at;
    for i in 0..n {
        let x = sum_free::value_sum_free(fields, place, limits::MAX_DEPTH);
        if !x.free {
            return false;
        }
        place = x.next;
    }
    true
}

// Whether a row's condition does not read it, and whether nothing does of what is asked for.
#[derive(Clone, Copy)]
struct Free {
    condition: bool,
    all: bool,
}

// Of the row in the line that starts at a place, in a process of n parameters. Its condition is asked for, or the whole row, with data and
// next values, at which nobody has to look where the condition reads the sum value.
fn row_free(fields: &limits::Fields, line: u16, n: u8, whole: bool) -> Free
    ensures { result ≡ frees_of whole (row_of n (drop line fields.now)) }
{
    let condition = sum_free::formula_sum_free(fields, line as usize + 3, limits::MAX_DEPTH);
    if !(whole & condition.free) {
        return Free {
            condition: condition.free,
            all: condition.free,
        };
    }
    let data = sum_free::value_sum_free(fields, condition.next, limits::MAX_DEPTH);
    Free {
        condition: true,
        all: data.free & values_free(fields, data.next, n),
    }
}

// What is asked for of row k of a process; no row reads nothing.
fn partner_free(lines: Lent, process: Process, k: u16, whole: bool) -> bool
    ensures { result ≡ partner_free lines.entry.fields.now lines.entry.starts.now process k whole }
{
    if k == 0 {
        return true;
    }
    let line = steps::line_of(lines.starts, process, k);
    let free = row_free(lines.fields, line, process.parameters.count, whole);
    free.all
}

// How many sum values need a look: one of those that there are where nothing reads them, and else all.
fn looks(free: bool, span: u16) -> u16
    ensures { result ≡ looks_of free span }
{
    if free { span.min(1) } else { span }
}

// ---- marks

fn no_mark() -> Mark
    ensures { result ≡ no_mark }
{
    Mark { at: 0, free: true }
}

// The mark of row k of the implementation, where there are marks and the row is internal.
fn mark_of(lines: Lent, shape: Shape, k: u16) -> Mark
    ensures { result ≡ mark_in lines.entry.fields.now lines.entry.starts.now shape k }
{
    if shape.marks.count == 0 {
        return no_mark();
    }
    let line = steps::line_of(lines.starts, shape.implementation, k);
    let action = layout::field_of(lines.fields, line, 1);
    if action != 0 {
        return no_mark();
    }
    mark_there(lines, shape, k)
}

// The same of an internal row, where there are marks.
fn mark_there(lines: Lent, shape: Shape, k: u16) -> Mark
    ensures { result ≡ mark_there lines.entry.fields.now lines.entry.starts.now shape k }
{
    let line = lines.line(shape.marks.first as usize);
    let place = marks::place(lines, shape, k);
    let fields = lines.fields;
    let mark = sum_free::formula_sum_free(fields, place, limits::MAX_DEPTH);
    let _all: &[u16] = fields; // for the proof: as a slice it has its length, which bounds the place
    Mark {
        at: (place - line as usize) as u16,
        free: mark.free,
    }
}

// ---- the plan of a row

// The plan of row k of a process, whose mark is given; whole rows are looked at with their partners, or only the conditions.
fn row_plan_of(
    lines: Lent,
    process: Process,
    other: Process,
    whole: bool,
    mark: Mark,
    k: u16,
) -> RowPlan
    ensures { result ≡ row_plan_of lines.entry.fields.now lines.entry.starts.now process other whole mark k }
{
    let line = steps::line_of(lines.starts, process, k);
    let action = layout::field_of(lines.fields, line, 1);
    let span = layout::field_of(lines.fields, line, 2);
    let partner = steps::row_with(lines, other, action);
    let free = row_free(lines.fields, line, process.parameters.count, whole);
    let all = free.all & partner_free(lines, other, partner, whole);
    RowPlan {
        partner: partner,
        looks: looks(all & mark.free, span),
        internal: action == 0,
        free: free.condition,
        front: conjuncts::front(lines.fields, line as usize + 3),
        mark: mark,
    }
}

// The same where there is a row k.
fn row_plan_in(
    lines: Lent,
    process: Process,
    other: Process,
    whole: bool,
    mark: Mark,
    k: u16,
) -> RowPlan
    ensures { result ≡ row_plan_in lines.entry.fields.now lines.entry.starts.now process other whole mark k }
{
    if k <= process.rows.count as u16 {
        return row_plan_of(lines, process, other, whole, mark, k);
    }
    RowPlan {
        partner: 0,
        looks: 0,
        internal: false,
        free: false,
        front: 0,
        mark: Mark { at: 0, free: false },
    }
}

// The plan of row number i of both processes, the implementation's first: there whole rows count, of the specification's rows only the
// conditions (criterion 7).
fn row_plan_for(lines: Lent, shape: Shape, i: usize) -> RowPlan
    requires { i < 64 }
    ensures { result ≡ row_plan_for lines.entry.fields.now lines.entry.starts.now shape i }
{
    let implementation = shape.implementation;
    let specification = shape.specification;
    if i < ROWS {
        row_plan_in(
            lines,
            implementation,
            specification,
            true,
            mark_of(lines, shape, i as u16 + 1),
            i as u16 + 1,
        )
    } else {
        row_plan_in(
            lines,
            specification,
            implementation,
            false,
            no_mark(),
            (i - ROWS) as u16 + 1,
        )
    }
}

// ---- risks

// What could leave one of n values from a place on without a value.
fn values_risk(fields: &limits::Fields, at: usize, n: u8) -> u32
    ensures { result ≡ values_risk fields.now at n }
{
    let mut risk = 0;
    let mut place = at;
    for i in 0..n {
        let x = divisors::value_divides(fields, place, limits::MAX_DEPTH);
        risk = divisors::both(risk, x.divides);
        place = x.next;
    }
    risk
}

// The same of the row in the line that starts at a place, in a process of n parameters: of its condition, data or next values. They are
// looked at for sum values below 256.
fn row_risk(fields: &limits::Fields, line: u16, n: u8) -> u32
    ensures { result ≡ risk_of (row_of n (drop line fields.now)) }
{
    if limits::MAX_SPAN < layout::field_of(fields, line, 2) {
        return divisors::OTHER;
    }
    let condition = divisors::formula_divides(fields, line as usize + 3, limits::MAX_DEPTH);
    let data = divisors::value_divides(fields, condition.next, limits::MAX_DEPTH);
    let next = values_risk(fields, data.next, n);
    divisors::both(condition.divides, divisors::both(data.divides, next))
}

// Of the mark that stands at a place, 0 for none.
fn mark_risk(fields: &limits::Fields, place: usize) -> u32
    ensures { result ≡ mark_risk fields.now place }
{
    if place == 0 {
        return 0;
    }
    let mark = divisors::formula_divides(fields, place, limits::MAX_DEPTH);
    mark.divides
}

// Of row k of a process, where there is one, or of the mark that stands at a place.
fn risk_in(lines: Lent, process: Process, k: u16, place: usize) -> u32
    ensures { result ≡ risk_in lines.entry.fields.now lines.entry.starts.now process k place }
{
    if k <= process.rows.count as u16 {
        let line = steps::line_of(lines.starts, process, k);
        let row = row_risk(lines.fields, line, process.parameters.count);
        return divisors::both(row, mark_risk(lines.fields, place));
    }
    0
}

// Of row number i of both processes, the implementation's first, and of its mark, which stands where its plan says.
fn risk_for(lines: Lent, shape: Shape, i: usize, place: usize) -> u32
    requires i_bound { i < 64 }
    requires place_value { place ≡ place_from lines.starts.now shape (row_plan_for lines.fields.now lines.starts.now shape i).mark.at }
    ensures { result ≡ risk_for lines.entry.fields.now lines.entry.starts.now shape i }
{
    if i < ROWS {
        risk_in(lines, shape.implementation, i as u16 + 1, place)
    } else {
        risk_in(lines, shape.specification, (i - ROWS) as u16 + 1, place)
    }
}

// Of the invariant, the mapping or the measure.
fn kinds_risk(lines: Lent, shape: Shape) -> u32
    ensures { result ≡ kinds_risk lines.entry.fields.now lines.entry.starts.now shape }
{
    let first = lines.line(shape.invariant as usize);
    let second = lines.line(shape.mapping as usize);
    let third = lines.line(shape.measure as usize);
    let invariant = divisors::formula_divides(lines.fields, first as usize + 1, limits::MAX_DEPTH);
    let mapping = values_risk(
        lines.fields,
        second as usize + 1,
        shape.specification.parameters.count,
    );
    let measure = divisors::value_divides(lines.fields, third as usize + 1, limits::MAX_DEPTH);
    divisors::both(invariant.divides, divisors::both(mapping, measure.divides))
}

// ---- all of them

// Whether there is a row number i.
fn is_there(shape: Shape, i: usize) -> bool
    ensures { result ≡ there_in shape i }
{
    let implementation = shape.implementation;
    let specification = shape.specification;
    if i < ROWS {
        i < implementation.rows.count as usize
    } else {
        i - ROWS < specification.rows.count as usize
    }
}

// Stores risk number i.
fn put_risk(i: usize, risk: u32, out: &mut [u16; LENGTH])
    requires { i < 65 }
    ensures { out.new ≡ risk_stored out.old i risk }
{
    let at = row_plan::FIRST_RISK + 2 * i;
    out[at] = row_plan::lower(risk);
    out[at + 1] = row_plan::upper(risk);
}

// Stores the plan of row number i and its risk, which it gives back. Where there is no such row, all of that is 0 and stands there already.
fn put_row(lines: Lent, shape: Shape, i: usize, out: &mut [u16; LENGTH]) -> u32
    requires i_bound { i < 64 }
    requires blank { Blank out.old i }
    ensures value { result ≡ risk_for lines.entry.fields.now lines.entry.starts.now shape i }
    ensures out_after { out.new ≡ stored out.old i (row_plan_for lines.entry.fields.now lines.entry.starts.now shape i) (risk_for lines.entry.fields.now lines.entry.starts.now shape i) }
{
    if !is_there(shape, i) {
        return 0;
    }
    let row = row_plan_for(lines, shape, i);
    let place = marks::place_from(lines.starts, shape, row.mark.at);
    let risk = risk_for(lines, shape, i, place);
    let at = row_plan::NUMBERS * i;
    out[at] = row_plan::packed(row);
    out[at + 1] = row.looks;
    out[at + 2] = row.front;
    out[at + 3] = row.mark.at;
    put_risk(i, risk, out);
    risk
}

// The plans and risks of all rows, the risk of invariant, mapping and measure, and the flag.
pub fn plan(lines: Lent, shape: Shape) -> [u16; LENGTH]
    ensures { result ≡ plan_in lines.entry.fields.now lines.entry.starts.now shape }
{
    let mut out = [0u16; LENGTH];
    let mut sure = true;
    for i in 0..2 * ROWS {
        let risk = put_row(lines, shape, i, &mut out);
        sure = sure & (risk == 0);
    }
    let risk = kinds_risk(lines, shape);
    put_risk(row_plan::KINDS_RISK, risk, &mut out);
    out[row_plan::UNSURE] = u16::from(!(sure & (risk == 0)));
    out
}
