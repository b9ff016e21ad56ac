// What C is told of a row of either process: its condition, mark, data and next values at a state, for a sum value. What is meant is in
// specs/Rows, of the design that the arrays hold.
#![tactic(auto)]

ghost use Rattle.std.specs.Prelude.{◌≡◌, ◌∷◌, drop};
ghost use Rattle.design.specs.Line.{row_of};
ghost use Rattle.design.specs.Loaded.{design_at};
ghost use Rattle.told_terms.specs.Terms.{formula_told};
ghost use Rattle.told_rows.specs.Rows.{told_row, line_told, mark_for, side_of, RowThere};

use design::{Process, Shape};
use layout::Lent;
use told_terms::Places;

// Condition, mark and data, and then the next values.
pub type RowPlaces = [u32; 3 + limits::MAX_PARAMETERS];

// Row k of a side, 0 the implementation; nothing but zeros if there is none.
pub fn row(
    lines: Lent,
    shape: Shape,
    side: u32,
    k: u16,
    values: &limits::Values,
    sum: u16,
) -> RowPlaces
    ensures { result ≡ told_row (design_at lines.entry.fields.now lines.entry.starts.now shape) side k values.now sum }
{
    let process = process_of(shape, side);
    if k == 0 {
        return [0u32; 3 + limits::MAX_PARAMETERS];
    }
    if (process.rows.count as u16) < k {
        return [0u32; 3 + limits::MAX_PARAMETERS];
    }
    let line = steps::line_of(lines.starts, process, k);
    let mark = mark_told(lines, shape, side, k, values, sum);
    row_told(
        lines.fields,
        line,
        process.parameters.count,
        mark,
        values,
        sum,
    )
}

// The process of a side.
fn process_of(shape: Shape, side: u32) -> Process
    ensures { result ≡ side_of shape side }
{
    if side == 0 {
        shape.implementation
    } else {
        shape.specification
    }
}

// The mark of row k, which the process has.
fn mark_told(lines: Lent, shape: Shape, side: u32, k: u16, values: &limits::Values, sum: u16) -> u32
    requires { RowThere shape side k }
    ensures { result ≡ formula_told (mark_for (design_at lines.entry.fields.now lines.entry.starts.now shape) side k) values.now sum }
{
    if side != 0 {
        return told_terms::HOLDS;
    }
    let line = steps::line_of(lines.starts, shape.implementation, k);
    if layout::field_of(lines.fields, line, 1) != 0 {
        return told_terms::HOLDS;
    }
    if shape.marks.count == 0 {
        return told_terms::HOLDS;
    }
    let place = marks::place(lines, shape, k);
    told_terms::formula(lines.fields, place, values, sum)
}

// What is told of the row in the line that starts at a place, of a process with n parameters, beside its mark.
fn row_told(
    fields: &limits::Fields,
    line: u16,
    n: u8,
    mark: u32,
    values: &limits::Values,
    sum: u16,
) -> RowPlaces
    ensures { result ≡ line_told (row_of n (drop line fields.now)) mark values.now sum }
{
    let condition = has_value::formula(fields, line as usize + 3, values, sum, limits::MAX_DEPTH);
    let carries = has_value::value(fields, condition.next, values, sum, limits::MAX_DEPTH);
    let next = told_terms::values(fields, carries.next, n, values, sum);
    row_places(
        told_terms::truth(condition),
        mark,
        told_terms::number(carries),
        next,
    )
}

fn row_places(condition: u32, mark: u32, carries: u32, next: Places) -> RowPlaces
    ensures { result ≡ condition ∷ mark ∷ carries ∷ next }
{
    [
        condition, mark, carries, next[0], next[1], next[2], next[3], next[4], next[5], next[6],
        next[7],
    ]
}
