// Criterion 10 at a state: whether invariant, mapping, measure, conditions, marks, and the data and next values of enabled rows have
// values. It goes by the plan: what is safe by its risk is not asked, and of a table in which nothing could lack a value one number says
// so. Every function answers any arrays and any plan. What each computes is in specs/Tenth; that it is the test of the crate decision is in
// proofs/Decided.
#![tactic(auto)]

ghost use Rattle.std.specs.Prelude.{◌≡◌, ◌+◌, ◌<◌, ◌≤◌};
ghost use Rattle.divisors.specs.Divisors.{so_at};
ghost use Rattle.layout.specs.Sizes.{Fits};
ghost use Rattle.tenth.specs.Tenth.{sure_by, row_by, rows_by, mapping_by, invariant_by, others_by, apart_as_read, asked_by, tenth_by};

use design::{Process, Shape};
use layout::Lent;

// Whether nothing could lack a value.
fn sure(plan: &[u16; row_plan::LENGTH]) -> bool
    ensures { result ≡ sure_by plan.now }
{
    row_plan::unsure(plan) == 0
}

// Of the row of a process after i others, which is number n of the plan: condition and mark, for each sum value, and, where it is enabled,
// its data and next values. What is so at the state is found once for all rows (crate divisors).
fn row(
    lines: Lent,
    shape: Shape,
    process: Process,
    plan: &[u16; row_plan::LENGTH],
    n: usize,
    i: u8,
    so: u32,
    v: &limits::Values,
) -> bool
    requires n_bound { n < 64 }
    requires so_value { so ≡ so_at v.now }
    ensures { result ≡ row_by lines.entry.fields.now lines.entry.starts.now shape process plan.now n (i + 1) v.now }
{
    if divisors::safe_where(row_plan::risk(plan, n), so, v) {
        return true;
    }
    let line = steps::line_of(lines.starts, process, i as u16 + 1);
    let planned = row_plan::planned(plan, n);
    let place = marks::place_from(lines.starts, shape, planned.mark.at);
    let span = layout::field_of(lines.fields, line, 2);
    defined::row(lines.fields, line, process.parameters.count, place, span, v)
}

// Of all rows of a process, whose first is number `from` of the plan.
fn rows(
    lines: Lent,
    shape: Shape,
    process: Process,
    plan: &[u16; row_plan::LENGTH],
    from: usize,
    so: u32,
    v: &limits::Values,
) -> bool
    requires count_bound { from + process.rows.count ≤ 64 }
    requires so_value { so ≡ so_at v.now }
    ensures { result ≡ rows_by lines.entry.fields.now lines.entry.starts.now shape process plan.now from v.now }
{
    for i in 0..process.rows.count {
        if !row(lines, shape, process, plan, from + i as usize, i, so, v) {
            return false;
        }
    }
    true
}

// Of the mapping, which may be known to be safe.
fn mapping(lines: Lent, shape: Shape, safe: bool, v: &limits::Values) -> bool
    ensures { result ≡ mapping_by lines.entry.fields.now lines.entry.starts.now shape safe v.now }
{
    if safe {
        return true;
    }
    defined::mapping(lines, shape, v)
}

// Of the invariant.
fn invariant(lines: Lent, shape: Shape, safe: bool, v: &limits::Values) -> bool
    ensures { result ≡ invariant_by lines.entry.fields.now lines.entry.starts.now shape safe v.now }
{
    if safe {
        return true;
    }
    defined::invariant(lines, shape, v)
}

// Of all but invariant and measure, where the invariant holds: the mapping, the rows, and those of the specification at the mapped state.
fn others(
    lines: Lent,
    shape: Shape,
    plan: &[u16; row_plan::LENGTH],
    safe: bool,
    v: &limits::Values,
) -> bool
    requires { Fits shape }
    ensures { result ≡ others_by lines.entry.fields.now lines.entry.starts.now shape plan.now safe v.now }
{
    if !mapping(lines, shape, safe, v) {
        return false;
    }
    let implementation = shape.implementation;
    let so = divisors::so(v);
    if !rows(lines, shape, implementation, plan, 0, so, v) {
        return false;
    }
    let t = steps::mapped(lines, shape, v);
    rows(
        lines,
        shape,
        shape.specification,
        plan,
        row_plan::ROWS,
        divisors::so(&t),
        &t,
    )
}

// Whether criterion 10 holds, the measure apart.
pub fn apart(lines: Lent, shape: Shape, plan: &[u16; row_plan::LENGTH], v: &limits::Values) -> bool
    requires { Fits shape }
    ensures { result ≡ apart_as_read lines.entry.fields.now lines.entry.starts.now shape plan.now v.now }
{
    if sure(plan) {
        return true;
    }
    let safe = divisors::safe_at(row_plan::risk(plan, row_plan::KINDS_RISK), v);
    if !invariant(lines, shape, safe, v) {
        return false;
    }
    if !steps::invariant(lines, shape, v) {
        return true;
    }
    others(lines, shape, plan, safe, v)
}

// Whether criterion 10 holds, where it is asked.
fn asked(lines: Lent, shape: Shape, plan: &[u16; row_plan::LENGTH], v: &limits::Values) -> bool
    requires { Fits shape }
    ensures { result ≡ asked_by lines.entry.fields.now lines.entry.starts.now shape plan.now v.now }
{
    if !apart(lines, shape, plan, v) {
        return false;
    }
    if divisors::safe_at(row_plan::risk(plan, row_plan::KINDS_RISK), v) {
        return true;
    }
    if !steps::invariant(lines, shape, v) {
        return true;
    }
    defined::measure(lines, shape, v)
}

// Whether criterion 10 holds. It is small enough for the compiler to put it into the walk, so that a table that is sure pays no call.
pub fn holds(lines: Lent, shape: Shape, plan: &[u16; row_plan::LENGTH], v: &limits::Values) -> bool
    requires { Fits shape }
    ensures { result ≡ tenth_by lines.entry.fields.now lines.entry.starts.now shape plan.now v.now }
{
    if sure(plan) {
        return true;
    }
    asked(lines, shape, plan, v)
}
