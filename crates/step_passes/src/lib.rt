// Whether the criteria hold of one step that a row makes at a state: 3, 4 and 5 of an internal step, 3, 6, 8 and 9 of a visible one; v is
// the state, t its mapped state, m its measure. Where the step leads invariant, mapping and measure have to have values: by their risk, a
// number of the crate divisors, that is seen without asking them. What each function computes is in specs/Steps; that it is the test of the
// crate decision is in state_passes/proofs/Decided. Every function answers any arrays.
#![tactic(auto)]

ghost use Rattle.std.specs.Prelude.{◌≡◌, false};
ghost use Rattle.step_passes.specs.Steps.{asked_in, has_values_in, kept_in, answered_in, internal_step, visible_step};

use design::{Process, Shape};
use layout::Lent;

// ---- where a step leads

// Whether invariant and mapping have values at x, and so does the measure if it is asked for: by their risk, else by themselves. It takes
// the three lines, and how many values the second has, and not the shape: with that lent in every step, the walk would read it again for
// each row.
fn asked(
    lines: Lent,
    risk: u32,
    invariant: u8,
    mapping: u8,
    n: u8,
    measure: u8,
    x: &limits::Values,
    measured: bool,
) -> bool
    ensures { result ≡ asked_in lines.entry.fields.now lines.entry.starts.now risk invariant mapping n measure x.now measured }
{
    if divisors::safe_at(risk, x) {
        return true;
    }
    if !defined::formula_in_line(lines, invariant, x) {
        return false;
    }
    if !defined::values_in_line(lines, mapping, n, x) {
        return false;
    }
    if !measured {
        return true;
    }
    defined::value_in_line(lines, measure, x)
}

// The same; where nothing could leave them without a value, as in most tables, nothing is asked. It stands here once for internal steps and
// once for visible ones, so that the compiler puts it, and not what it asks, into each.
fn has_values(lines: Lent, shape: Shape, risk: u32, x: &limits::Values, measured: bool) -> bool
    ensures { result ≡ has_values_in lines.entry.fields.now lines.entry.starts.now shape risk x.now measured }
{
    if risk == 0 {
        return true;
    }
    let invariant = shape.invariant;
    let n = shape.specification.parameters.count;
    let mapping = shape.mapping;
    let measure = shape.measure;
    asked(lines, risk, invariant, mapping, n, measure, x, measured)
}

fn has_mapping(lines: Lent, shape: Shape, risk: u32, x: &limits::Values) -> bool
    ensures { result ≡ has_values_in lines.entry.fields.now lines.entry.starts.now shape risk x.now false }
{
    if risk == 0 {
        return true;
    }
    let invariant = shape.invariant;
    let n = shape.specification.parameters.count;
    let mapping = shape.mapping;
    let measure = shape.measure;
    asked(lines, risk, invariant, mapping, n, measure, x, false)
}

// ---- internal steps

// Whether an internal step to x keeps the mapping t, and, if it is marked, lowers the measure m.
fn kept(
    lines: Lent,
    shape: Shape,
    x: &limits::Values,
    t: &limits::Values,
    m: u16,
    marked: bool,
) -> bool
    ensures { result ≡ kept_in lines.entry.fields.now lines.entry.starts.now shape x.now t.now m marked }
{
    let mut there = [0u16; limits::MAX_PARAMETERS];
    steps::put_mapped(lines, shape, x, &mut there);
    if !steps::same(shape.specification.parameters.count, t, &there) {
        return false;
    }
    if !marked {
        return true;
    }
    steps::measure(lines, shape, x) < m
}

// Whether criteria 3, 4 and 5 hold of the step of an internal row whose data stand at a place; the step is marked or not.
pub fn internal_holds(
    lines: Lent,
    shape: Shape,
    risk: u32,
    at: usize,
    marked: bool,
    v: &limits::Values,
    t: &limits::Values,
    m: u16,
    sum: u16,
) -> bool
    ensures { result ≡ internal_step lines.entry.fields.now lines.entry.starts.now shape risk at marked v.now t.now m sum }
{
    let data = eval::value(lines.fields, at, v, sum, limits::MAX_DEPTH);
    let n = shape.implementation.parameters.count;
    let mut x = [0u16; limits::MAX_PARAMETERS];
    steps::put_values(lines.fields, data.next, n, v, sum, &mut x);
    if !steps::inside(lines, shape, &x) {
        return false;
    }
    if !has_values(lines, shape, risk, &x, marked) {
        return false;
    }
    kept(lines, shape, &x, t, m, marked)
}

// ---- visible steps

// Whether row j of the specification makes the same step at t: it is enabled, carries the same data and leads to `there`.
fn answered(
    lines: Lent,
    specification: Process,
    j: u16,
    carries: u16,
    there: &limits::Values,
    t: &limits::Values,
    sum: u16,
) -> bool
    ensures { result ≡ answered_in lines.entry.fields.now lines.entry.starts.now specification j carries there.now t.now sum }
{
    if j == 0 {
        return false;
    }
    let line = steps::line_of(lines.starts, specification, j);
    let condition = eval::formula(lines.fields, line as usize + 3, t, sum, limits::MAX_DEPTH);
    if !condition.holds {
        return false;
    }
    let carried = eval::value(lines.fields, condition.next, t, sum, limits::MAX_DEPTH);
    if carries != carried.value {
        return false;
    }
    let n = specification.parameters.count;
    let mut next = [0u16; limits::MAX_PARAMETERS];
    steps::put_values(lines.fields, carried.next, n, t, sum, &mut next);
    steps::same(n, there, &next)
}

// Whether criteria 3, 6, 8 and 9 hold of the step of a visible row whose data stand at a place; j is the number of its partner.
pub fn visible_holds(
    lines: Lent,
    shape: Shape,
    risk: u32,
    at: usize,
    j: u16,
    v: &limits::Values,
    t: &limits::Values,
    sum: u16,
) -> bool
    ensures { result ≡ visible_step lines.entry.fields.now lines.entry.starts.now shape risk at j v.now t.now sum }
{
    let data = eval::value(lines.fields, at, v, sum, limits::MAX_DEPTH);
    let n = shape.implementation.parameters.count;
    let mut x = [0u16; limits::MAX_PARAMETERS];
    steps::put_values(lines.fields, data.next, n, v, sum, &mut x);
    if !steps::inside(lines, shape, &x) {
        return false;
    }
    if !has_mapping(lines, shape, risk, &x) {
        return false;
    }
    let mut next = [0u16; limits::MAX_PARAMETERS];
    steps::put_mapped(lines, shape, &x, &mut next);
    let specification = shape.specification;
    answered(lines, specification, j, data.value, &next, t, sum)
}
