// A measure for the design in a desk's arrays (02, order 4): the length of the longest run of marked steps from each state where the
// invariant holds, written in a lent slice, or zeros and a state on a loop; turned down where the slice has not a place for each state, and
// where criterion 3 fails in some state, or a value is missing there, the measure's own apart. What is answered and written is in
// specs/Answer, for any arrays and any slice.
#![tactic(auto)]

ghost use Rattle.std.specs.Prelude.{◌≡◌};
ghost use Rattle.foundation.specs.Reflects.{Reflects};
ghost use Rattle.marked_edges.specs.Edges.{SumsNumbered};
ghost use Rattle.measure.specs.Answer.{HasRoom, answer_of, MeasureIn};

use answers::Measured;
use design::{Counts, Process};
use layout::Lent;

// Writes the measure in the slice, or zeros for a loop; turned down, nothing.
pub fn measure(lines: Lent, counts: Counts, slice: &mut [u16]) -> Measured
    ensures { MeasureIn lines.entry.fields.now lines.entry.starts.now counts slice.old slice.new result }
{
    if !has_room(lines, counts, slice.len()) {
        return Measured::TurnedDown(17);
    }
    let shape = layout::shape_of(counts);
    let n = lines.state_count(counts);
    let plan = plan::plan(lines, shape);
    if !measurable::holds(lines, shape, &plan, n) {
        return Measured::TurnedDown(18);
    }
    answer_of(longest_runs::fill(lines, shape, &plan, n, slice))
}

// Whether there is a place for each state among n, and each step has a number.
fn has_room(lines: Lent, counts: Counts, n: usize) -> bool
    ensures { Reflects (HasRoom lines.entry.fields.now lines.entry.starts.now counts n) result }
{
    if !layout::counts_fit(counts) {
        return false;
    }
    let shape = layout::shape_of(counts);
    if !spans_fit(lines, shape.implementation) {
        return false;
    }
    let states = lines.state_count(counts);
    (states <= n) & (states <= limits::MAX_STATES)
}

// Whether no row has more sum values than a text may give it.
fn spans_fit(lines: Lent, process: Process) -> bool
    ensures { Reflects (SumsNumbered lines.entry.fields.now lines.entry.starts.now process) result }
{
    for i in 0..process.rows.count {
        if limits::MAX_SPAN < steps::row_span(lines, process, i as u16 + 1) {
            return false;
        }
    }
    true
}

fn answer_of(filled: Result<(), u16>) -> Measured
    ensures { result ≡ answer_of filled }
{
    match filled {
        Ok(()) => Measured::Filled,
        Err(state) => Measured::Loop(state),
    }
}
