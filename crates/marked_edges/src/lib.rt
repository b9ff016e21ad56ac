// The marked steps from a state of the implementation, one after the other: a step has a number, by its row and its sum value, and `next`
// finds the first from a number on. What a number stands for is in specs/Edges.
#![tactic(auto)]

ghost use Rattle.std.specs.Prelude.{◌≡◌, ◌≤◌};
ghost use Rattle.layout.specs.Sizes.{Fits};
ghost use Rattle.plan.specs.Plan.{plan_in};
ghost use Rattle.marked_edges.specs.Edges.{leads_in, FirstMarked, FirstIn};

use design::Shape;
use layout::Lent;
use row_looks::{Look, Row};

// As many numbers as rows and sum values have: row i, counted from 0, has those from SUMS * i on.
pub const SUMS: usize = limits::MAX_SPAN as usize;

pub const EDGES: usize = limits::MAX_ROWS * SUMS;

// A step: its number, and that of the state that it leads to.
#[derive(Clone, Copy)]
pub struct Edge {
    pub edge: usize,
    pub to: usize,
}

// The first sum value from `from` on that needs a look and for which an internal row has a marked step with a number.
fn marked_from(fields: &limits::Fields, row: Row, v: &limits::Values, from: u16) -> Option<Look>
    ensures { FirstMarked fields.now row v.now from result }
{
    if !row.internal {
        return None;
    }
    let mut sum = from;
    while let Some(look) = row_looks::enabled_from(fields, row, v, sum) {
        if limits::MAX_SPAN <= look.sum {
            return None;
        }
        if marks::holds(fields, row.mark, v, look.sum) {
            return Some(look);
        }
        sum = look.sum + 1;
    }
    None
}

// The first marked step from a number on.
pub fn next(
    lines: Lent,
    shape: Shape,
    plan: &[u16; row_plan::LENGTH],
    v: &limits::Values,
    from: usize,
) -> Option<Edge>
    requires fits { Fits shape }
    requires plan_value { plan.now ≡ plan_in lines.fields.now lines.starts.now shape }
    requires from_bound { from ≤ 8192 }
    ensures { FirstIn (leads_in lines.entry.fields.now lines.entry.starts.now shape v.now) from result }
{
    let first = (from / SUMS) as u8;
    let mut sum = (from % SUMS) as u16;
    for i in first..shape.implementation.rows.count {
        let row = row_looks::row_at(lines, shape, plan, i, v);
        if let Some(found) = marked_from(lines.fields, row, v, sum) {
            let x = row_looks::next(lines.fields, shape, found.at, v, found.sum);
            return Some(Edge {
                edge: i as usize * SUMS + found.sum as usize,
                to: steps::number(lines, shape.implementation, &x),
            });
        }
        sum = 0;
    }
    None
}
