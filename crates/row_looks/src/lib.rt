// A row of the implementation at a state: for which sum values it has to be looked at, for which it is enabled, and where it leads. It goes by
// the plan, so that what does not read the sum value is evaluated once. What is promised of a row is in specs/Looks, in the words of the
// design in the arrays.
#![tactic(auto)]

ghost use Rattle.std.specs.Prelude.{◌≡◌, ◌<◌};
ghost use Rattle.layout.specs.Sizes.{Fits};
ghost use Rattle.plan.specs.Plan.{plan_in};
ghost use Rattle.row_looks.specs.Looks.{looks_needed, IsAt, FirstOn, next_from};

use conjuncts::Guarded;
use design::Shape;
use layout::Lent;
use row_plan::RowPlan;

// A row at a state.
#[derive(Clone, Copy)]
pub struct Row {
    pub internal: bool,
    // where its condition, or what is left of it, stands, and how deep that may be
    pub at: usize,
    pub depth: usize,
    // how many sum values need a look: none where the row is known not to be enabled
    pub looks: u16,
    // where its mark stands, 0 if all its steps are marked
    pub mark: usize,
}

// A sum value for which a row is enabled, and where its data stand.
#[derive(Clone, Copy)]
pub struct Look {
    pub sum: u16,
    pub at: usize,
}

// The row after i others.
pub fn row_at(
    lines: Lent,
    shape: Shape,
    plan: &[u16; row_plan::LENGTH],
    i: u8,
    v: &limits::Values,
) -> Row
    requires fits { Fits shape }
    requires i_lt_count { i < shape.implementation.rows.count }
    requires plan_value { plan.now ≡ plan_in lines.fields.now lines.starts.now shape }
    ensures { IsAt lines.entry.fields.now lines.entry.starts.now shape i v.now result }
{
    let planned = row_plan::planned(plan, i as usize);
    let line = steps::line_of(lines.starts, shape.implementation, i as u16 + 1);
    let front = conjuncts::guard(lines.fields, line as usize + 3, v, 0, planned.front);
    Row {
        internal: planned.internal,
        at: front.at,
        depth: front.depth,
        looks: looks_for(lines.fields, front, planned, v),
        mark: marks::place_from(lines.starts, shape, planned.mark.at),
    }
}

// The looks that are planned; none where the conjuncts in front of the condition do not hold, or the rest, if one look at it spares many.
fn looks_for(fields: &limits::Fields, front: Guarded, planned: RowPlan, v: &limits::Values) -> u16
    ensures { result ≡ looks_needed fields.now front planned v.now }
{
    if !front.holds {
        return 0;
    }
    if !(planned.free & (1 < planned.looks)) {
        return planned.looks;
    }
    let on = eval::formula(fields, front.at, v, 0, front.depth);
    if on.holds { planned.looks } else { 0 }
}

// The first sum value from `from` on that needs a look and for which a row is enabled.
pub fn enabled_from(
    fields: &limits::Fields,
    row: Row,
    v: &limits::Values,
    from: u16,
) -> Option<Look>
    ensures { FirstOn fields.now row v.now from result }
{
    for sum in from..row.looks {
        let on = eval::formula(fields, row.at, v, sum, row.depth);
        if on.holds {
            return Some(Look { sum, at: on.next });
        }
    }
    None
}

// Where a row of the implementation leads whose data stand at a place.
pub fn next(
    fields: &limits::Fields,
    shape: Shape,
    at: usize,
    v: &limits::Values,
    sum: u16,
) -> limits::Values
    ensures { result ≡ next_from fields.now shape at v.now sum }
{
    let data = eval::value(fields, at, v, sum, limits::MAX_DEPTH);
    steps::values(
        fields,
        data.next,
        shape.implementation.parameters.count,
        v,
        sum,
    )
}
