// Whether a measure can be made: criterion 10, the measure apart, holds in every state, and criterion 3 in every state in which the
// invariant does: all rows, all sum values, up to the first missing value or step that leads elsewhere. What is promised is in
// specs/Measurable, in the words of the design in the arrays.
#![tactic(auto)]

ghost use Rattle.std.specs.Prelude.{◌≡◌, ◌≤◌, ◌<◌};
ghost use Rattle.criteria.specs.Design.{states};
ghost use Rattle.design.specs.Loaded.{design_at};
ghost use Rattle.layout.specs.Sizes.{Fits};
ghost use Rattle.plan.specs.Plan.{plan_in};
ghost use Rattle.row_looks.specs.Looks.{row_of};
ghost use Rattle.steps.specs.Arrays.{state_in};
ghost use Rattle.measurable.specs.Measurable.{RowStays, RowsStay, StateStays, CanMeasure};

use design::Shape;
use layout::Lent;

// In all n states.
pub fn holds(lines: Lent, shape: Shape, plan: &[u16; row_plan::LENGTH], n: usize) -> bool
    requires fits { Fits shape }
    requires plan_value { plan.now ≡ plan_in lines.fields.now lines.starts.now shape }
    requires n_value { n ≡ states (design_at lines.fields.now lines.starts.now shape) }
    requires n_bound { n ≤ 65536 }
    ensures { CanMeasure (design_at lines.entry.fields.now lines.entry.starts.now shape) result }
{
    for k in 0..n {
        if !state_stays(lines, shape, plan, k as u16) {
            return false;
        }
    }
    true
}

// In the state with a number.
fn state_stays(lines: Lent, shape: Shape, plan: &[u16; row_plan::LENGTH], number: u16) -> bool
    requires fits { Fits shape }
    requires plan_value { plan.now ≡ plan_in lines.fields.now lines.starts.now shape }
    ensures { StateStays lines.entry.fields.now lines.entry.starts.now shape (state_in lines.entry.fields.now lines.entry.starts.now shape.implementation number) result }
{
    let v = steps::state(lines, shape.implementation, number);
    if !tenth::apart(lines, shape, plan, &v) {
        return false;
    }
    if !steps::invariant(lines, shape, &v) {
        return true;
    }
    rows_stay(lines, shape, plan, &v)
}

// Of all rows.
fn rows_stay(lines: Lent, shape: Shape, plan: &[u16; row_plan::LENGTH], v: &limits::Values) -> bool
    requires fits { Fits shape }
    requires plan_value { plan.now ≡ plan_in lines.fields.now lines.starts.now shape }
    ensures { RowsStay lines.entry.fields.now lines.entry.starts.now shape v.now result }
{
    let rows = shape.implementation.rows.count;
    for i in 0..rows {
        if !row_stays(lines, shape, plan, i, v) {
            return false;
        }
    }
    true
}

// Of the row after i others, for all sum values.
fn row_stays(
    lines: Lent,
    shape: Shape,
    plan: &[u16; row_plan::LENGTH],
    i: u8,
    v: &limits::Values,
) -> bool
    requires fits { Fits shape }
    requires i_lt_count { i < shape.implementation.rows.count }
    requires plan_value { plan.now ≡ plan_in lines.fields.now lines.starts.now shape }
    ensures { RowStays (design_at lines.entry.fields.now lines.entry.starts.now shape) v.now (row_of lines.entry.fields.now lines.entry.starts.now shape i) result }
{
    let row = row_looks::row_at(lines, shape, plan, i, v);
    let mut sum = 0;
    while let Some(look) = row_looks::enabled_from(lines.fields, row, v, sum) {
        let x = row_looks::next(lines.fields, shape, look.at, v, look.sum);
        if !steps::inside(lines, shape, &x) {
            return false;
        }
        sum = look.sum + 1;
    }
    true
}
