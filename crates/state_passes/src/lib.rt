// Whether a state passes, with no word on where it fails: one look at each row and sum value, all criteria at once. So a state that
// passes is paid for once, and only one that fails is searched (crate lowest_failure). Every function answers any arrays and any plan.
//
// What does not change from state to state is worked out before (crate plan). What each function computes is in specs/Passes; that it
// is the quick test of the crate decision is in proofs/Decided.
#![tactic(auto)]

ghost use Rattle.std.specs.Prelude.{◌≡◌, ◌+◌, ◌<◌, ◌≤◌};
ghost use Rattle.layout.specs.Sizes.{Fits};
ghost use Rattle.row_plan.specs.RowPlan.{row_plan_at, risk_at};
ghost use Rattle.state_passes.specs.Passes.{known_in, known_mark, visible_look, visible_looks, internal_look, internal_looks, looks_in, row_for, row_in, impl_in, impl_between, replied_in, reply_looks, reply_in, spec_in, spec_between, passes_in};

use conjuncts::Guarded;
use design::{Process, Shape};
use eval::Held;
use layout::Lent;
use row_plan::RowPlan;

// A row that is looked at.
#[derive(Clone, Copy)]
pub struct Row {
    // where its condition, or what is left of it, stands, and how deep that may be
    pub at: usize,
    pub depth: usize,
    // whether that does not read the sum value
    pub free: bool,
    // how many sum values need a look
    pub looks: u16,
    pub internal: bool,
    // the number of its partner, 0 if there is none
    pub partner: u16,
    // where its mark stands, 0 if all its steps are marked, and whether that does not read the sum value
    pub mark: usize,
    pub steady: bool,
    // what could leave invariant, mapping or measure without a value where it leads
    pub risk: u32,
}

// What is known of a row for the sum value 0: whether its condition holds, and whether its mark does.
#[derive(Clone, Copy)]
pub struct First {
    pub on: Held,
    pub marked: bool,
}

// The row of a plan, of whose condition the conjuncts in front were evaluated, and whose mark stands at a place.
fn row_for(front: Guarded, planned: RowPlan, mark: usize, risk: u32) -> Row
    ensures { result ≡ row_for front planned mark risk }
{
    Row {
        at: front.at,
        depth: front.depth,
        free: planned.free,
        looks: planned.looks,
        internal: planned.internal,
        partner: planned.partner,
        mark: mark,
        steady: planned.mark.free,
        risk: risk,
    }
}

// Whether a row's condition holds for a sum value, and where it ends: what is known for sum value 0 does for all where nothing reads it.
fn on_at(fields: &limits::Fields, row: Row, v: &limits::Values, first: Held, sum: u16) -> Held
    ensures { result ≡ known_in fields.now row v.now first sum }
{
    if row.free | (sum == 0) {
        return first;
    }
    eval::formula(fields, row.at, v, sum, row.depth)
}

// Whether a row's mark holds for a sum value, where that is known for sum value 0.
fn marked_at(fields: &limits::Fields, row: Row, v: &limits::Values, first: bool, sum: u16) -> bool
    ensures { result ≡ known_mark fields.now row v.now first sum }
{
    if row.steady | (sum == 0) {
        return first;
    }
    marks::holds(fields, row.mark, v, sum)
}

// ---- the looks at a visible row

// One look: whether criteria 3, 6, 8 and 9 hold for a sum value.
fn visible_look(
    lines: Lent,
    shape: Shape,
    row: Row,
    first: Held,
    v: &limits::Values,
    t: &limits::Values,
    sum: u16,
) -> bool
    ensures { result ≡ visible_look lines.entry.fields.now lines.entry.starts.now shape row first v.now t.now sum }
{
    let on = on_at(lines.fields, row, v, first, sum);
    if !on.holds {
        return true;
    }
    step_passes::visible_holds(lines, shape, row.risk, on.next, row.partner, v, t, sum)
}

// Whether they all do.
fn visible_looks(
    lines: Lent,
    shape: Shape,
    row: Row,
    first: Held,
    v: &limits::Values,
    t: &limits::Values,
) -> bool
    ensures { result ≡ visible_looks lines.entry.fields.now lines.entry.starts.now shape row first v.now t.now }
{
    for sum in 0..row.looks {
        if !visible_look(lines, shape, row, first, v, t, sum) {
            return false;
        }
    }
    true
}

// ---- the looks at an internal row

// One look: where criteria 3, 4 and 5 hold for a sum value, whether there is no marked step.
fn internal_look(
    lines: Lent,
    shape: Shape,
    row: Row,
    first: First,
    v: &limits::Values,
    t: &limits::Values,
    m: u16,
    sum: u16,
) -> Option<bool>
    ensures { result ≡ internal_look lines.entry.fields.now lines.entry.starts.now shape row first v.now t.now m sum }
{
    let on = on_at(lines.fields, row, v, first.on, sum);
    if !on.holds {
        return Some(true);
    }
    let marked = marked_at(lines.fields, row, v, first.marked, sum);
    let holds = step_passes::internal_holds(lines, shape, row.risk, on.next, marked, v, t, m, sum);
    holds.then_some(!marked)
}

// The same of them all: nothing where one fails.
fn internal_looks(
    lines: Lent,
    shape: Shape,
    row: Row,
    first: First,
    v: &limits::Values,
    t: &limits::Values,
    m: u16,
) -> Option<bool>
    ensures { result ≡ internal_looks lines.entry.fields.now lines.entry.starts.now shape row first v.now t.now m }
{
    let mut quiet = true;
    for sum in 0..row.looks {
        quiet = quiet & internal_look(lines, shape, row, first, v, t, m, sum)?;
    }
    Some(quiet)
}

// ---- the rows of the implementation

// What a row's looks see: where it holds, whether it has no marked step. A condition or a mark that does not read the sum value is evaluated once.
fn row_looks(
    lines: Lent,
    shape: Shape,
    row: Row,
    v: &limits::Values,
    t: &limits::Values,
    m: u16,
) -> Option<bool>
    ensures { result ≡ looks_in lines.entry.fields.now lines.entry.starts.now shape row v.now t.now m }
{
    let on = eval::formula(lines.fields, row.at, v, 0, row.depth);
    if row.free & !on.holds {
        return Some(true);
    }
    if row.internal {
        let first = First {
            on: on,
            marked: marks::holds(lines.fields, row.mark, v, 0),
        };
        return internal_looks(lines, shape, row, first, v, t, m);
    }
    visible_looks(lines, shape, row, on, v, t).then_some(true)
}

// What is seen of the row after i others: the conjuncts in front of its condition, and if they hold its looks at what is left.
fn row_seen(
    lines: Lent,
    shape: Shape,
    plan: &[u16; row_plan::LENGTH],
    i: u8,
    v: &limits::Values,
    t: &limits::Values,
    m: u16,
) -> Option<bool>
    requires { i < 64 }
    ensures { result ≡ row_in lines.entry.fields.now lines.entry.starts.now shape (i + 1) (row_plan_at plan.now i) (risk_at plan.now 64) v.now t.now m }
{
    let line = steps::line_of(lines.starts, shape.implementation, i as u16 + 1);
    let conjuncts = row_plan::front(plan, i as usize);
    let front = conjuncts::guard(lines.fields, line as usize + 3, v, 0, conjuncts);
    if !front.holds {
        return Some(true);
    }
    let planned = row_plan::planned(plan, i as usize);
    let mark = marks::place_from(lines.starts, shape, planned.mark.at);
    let row = row_for(
        front,
        planned,
        mark,
        row_plan::risk(plan, row_plan::KINDS_RISK),
    );
    row_looks(lines, shape, row, v, t, m)
}

// What is seen of the rows after `first` others and before `end`.
pub fn rows_seen_between(
    lines: Lent,
    shape: Shape,
    plan: &[u16; row_plan::LENGTH],
    first: u8,
    end: u8,
    v: &limits::Values,
    t: &limits::Values,
    m: u16,
) -> Option<bool>
    requires { end ≤ 64 }
    ensures { result ≡ impl_between lines.entry.fields.now lines.entry.starts.now shape plan.now first end v.now t.now m }
{
    let mut quiet = true;
    for i in first..end {
        quiet = quiet & row_seen(lines, shape, plan, i, v, t, m)?;
    }
    Some(quiet)
}

// What is seen of all rows.
fn rows_seen(
    lines: Lent,
    shape: Shape,
    plan: &[u16; row_plan::LENGTH],
    v: &limits::Values,
    t: &limits::Values,
    m: u16,
) -> Option<bool>
    requires { Fits shape }
    ensures { result ≡ impl_in lines.entry.fields.now lines.entry.starts.now shape plan.now v.now t.now m }
{
    let implementation = shape.implementation;
    let count = implementation.rows.count;
    rows_seen_between(lines, shape, plan, 0, count, v, t, m)
}

// ---- the rows of the specification, at a focus point

// One look at a row: whether criterion 7 holds.
fn replied(
    lines: Lent,
    implementation: Process,
    row: Row,
    first: Held,
    v: &limits::Values,
    t: &limits::Values,
    sum: u16,
) -> bool
    ensures { result ≡ replied_in lines.entry.fields.now lines.entry.starts.now implementation row first v.now t.now sum }
{
    let on = on_at(lines.fields, row, t, first, sum);
    if !on.holds {
        return true;
    }
    if row.partner == 0 {
        return false;
    }
    let line = steps::line_of(lines.starts, implementation, row.partner);
    conjuncts::holds(lines.fields, line as usize + 3, v, sum)
}

// Whether it holds at its looks.
fn reply_looks(
    lines: Lent,
    implementation: Process,
    row: Row,
    v: &limits::Values,
    t: &limits::Values,
) -> bool
    ensures { result ≡ reply_looks lines.entry.fields.now lines.entry.starts.now implementation row v.now t.now }
{
    let first = eval::formula(lines.fields, row.at, t, 0, row.depth);
    if row.free & !first.holds {
        return true;
    }
    for sum in 0..row.looks {
        if !replied(lines, implementation, row, first, v, t, sum) {
            return false;
        }
    }
    true
}

// Whether it holds of the row after i others.
fn row_replied(
    lines: Lent,
    shape: Shape,
    plan: &[u16; row_plan::LENGTH],
    i: u8,
    v: &limits::Values,
    t: &limits::Values,
) -> bool
    requires { 32 + i < 64 }
    ensures { result ≡ reply_in lines.entry.fields.now lines.entry.starts.now shape (i + 1) (row_plan_at plan.now (32 + i)) v.now t.now }
{
    let line = steps::line_of(lines.starts, shape.specification, i as u16 + 1);
    let conjuncts = row_plan::front(plan, row_plan::ROWS + i as usize);
    let front = conjuncts::guard(lines.fields, line as usize + 3, t, 0, conjuncts);
    if !front.holds {
        return true;
    }
    let planned = row_plan::planned(plan, row_plan::ROWS + i as usize);
    let row = row_for(front, planned, 0, 0);
    reply_looks(lines, shape.implementation, row, v, t)
}

// Whether it holds of the rows after `first` others and before `end`.
pub fn rows_replied_between(
    lines: Lent,
    shape: Shape,
    plan: &[u16; row_plan::LENGTH],
    first: u8,
    end: u8,
    v: &limits::Values,
    t: &limits::Values,
) -> bool
    requires { end ≤ 32 }
    ensures { result ≡ spec_between lines.entry.fields.now lines.entry.starts.now shape plan.now first end v.now t.now }
{
    for i in first..end {
        if !row_replied(lines, shape, plan, i, v, t) {
            return false;
        }
    }
    true
}

// Whether it holds of each row.
fn rows_replied(
    lines: Lent,
    shape: Shape,
    plan: &[u16; row_plan::LENGTH],
    v: &limits::Values,
    t: &limits::Values,
) -> bool
    requires { Fits shape }
    ensures { result ≡ spec_in lines.entry.fields.now lines.entry.starts.now shape plan.now v.now t.now }
{
    let specification = shape.specification;
    let count = specification.rows.count;
    rows_replied_between(lines, shape, plan, 0, count, v, t)
}

// ---- the state

// Whether the state v, whose mapped state is t, passes.
pub fn passes(
    lines: Lent,
    shape: Shape,
    plan: &[u16; row_plan::LENGTH],
    v: &limits::Values,
    t: &limits::Values,
) -> bool
    requires { Fits shape }
    ensures { result ≡ passes_in lines.entry.fields.now lines.entry.starts.now shape plan.now v.now t.now }
{
    if !steps::below(lines, shape.specification, t) {
        return false;
    }
    let m = steps::measure(lines, shape, v);
    let Some(quiet) = rows_seen(lines, shape, plan, v, t, m) else {
        return false;
    };
    if !quiet {
        return true;
    }
    rows_replied(lines, shape, plan, v, t)
}
