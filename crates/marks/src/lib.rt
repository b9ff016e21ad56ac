// Marks, from a desk's arrays: how many rows are internal, where the mark of one stands in the line of marks, and whether it holds. Every
// public function answers any arrays. What each computes is in specs/Marks; that this is the mark of the design in the arrays is in proofs/Held.
#![tactic(auto)]

ghost use Rattle.std.specs.Prelude.{◌≡◌};
ghost use Rattle.marks.specs.Marks.{internal_in, after_formulas, mark_place, marked_in, place_from, mark_holds};

use design::{Process, Shape};
use layout::Lent;

// ---- internal rows

// How many of the first n rows of a process are internal.
pub fn internal_rows(lines: Lent, process: Process, n: u16) -> u16
    ensures { result ≡ internal_in lines.entry.fields.now lines.entry.starts.now process n }
{
    let internal = (0..n).filter(|i| {
        let action = lines.field(process.rows.first as usize + *i as usize, 1);
        action == 0
    });
    internal.count() as u16
}

// ---- their marks

// The place after n formulas that stand one after the other from a place on; whether they read the sum value is told beside it.
fn after_formulas(fields: &limits::Fields, at: usize, n: u16) -> usize
    ensures { result ≡ after_formulas fields.now at n }
{
    let mut next = at;
    for i in 0..n {
        let x = sum_free::formula_sum_free(fields, next, limits::MAX_DEPTH);
        next = x.next;
    }
    next
}

// Where the mark of row k of the implementation stands, if it is internal: after those of the internal rows before it.
pub fn place(lines: Lent, shape: Shape, k: u16) -> usize
    ensures { result ≡ mark_place lines.entry.fields.now lines.entry.starts.now shape k }
{
    let line = lines.line(shape.marks.first as usize);
    let earlier = internal_rows(lines, shape.implementation, k.saturating_sub(1));
    after_formulas(lines.fields, line as usize + 1, earlier)
}

// Whether the mark of row k, if it is internal, holds: without a line of marks each does.
pub fn marked(lines: Lent, shape: Shape, k: u16, v: &limits::Values, sum: u16) -> bool
    ensures { result ≡ marked_in lines.entry.fields.now lines.entry.starts.now shape k v.now sum }
{
    if shape.marks.count == 0 {
        return true;
    }
    let at = place(lines, shape, k);
    let mark = eval::formula(lines.fields, at, v, sum, limits::MAX_DEPTH);
    mark.holds
}

// ---- marks by their place in the line of marks; 0, where the line's kind stands, says that there is none

// Where such a mark stands among the fields, 0 for none.
pub fn place_from(starts: &limits::Starts, shape: Shape, at: u16) -> usize
    ensures { result ≡ place_from starts.now shape at }
{
    if at == 0 {
        return 0;
    }
    let line = terms::field(starts, shape.marks.first as usize);
    line as usize + at as usize
}

// Whether the mark that stands there holds; without one every step is marked.
pub fn holds(fields: &limits::Fields, place: usize, v: &limits::Values, sum: u16) -> bool
    ensures { result ≡ mark_holds fields.now place v.now sum }
{
    if place == 0 {
        return true;
    }
    let mark = eval::formula(fields, place, v, sum, limits::MAX_DEPTH);
    mark.holds
}
