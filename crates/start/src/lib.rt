// The initial state of the design in a desk's arrays: criterion 1, its failure, and whether an internal step may be the first. Every
// function answers any arrays and any counts. What each computes is in specs/Start.
#![tactic(auto)]

ghost use Rattle.std.specs.Prelude.{◌≡◌};
ghost use Rattle.decision.specs.Tests.{no_internal_b};
ghost use Rattle.design.specs.Loaded.{design_at};
ghost use Rattle.start.specs.Start.{start_in, start_failure_in, start_meets, no_internal_row, acceptance_in};

use design::{Counts, Shape};
use layout::Lent;
use verdicts::{Acceptance, Failure};

// Whether criterion 1 holds; not where the counts do not fit.
pub fn holds(lines: Lent, counts: Counts) -> bool
    ensures { result ≡ start_in lines.entry.fields.now lines.entry.starts.now counts }
{
    if !layout::counts_fit(counts) {
        return false;
    }
    meets(lines, layout::shape_of(counts))
}

// The failure of criterion 1.
pub fn failure(lines: Lent, counts: Counts) -> Failure
    ensures { result ≡ start_failure_in lines.entry.fields.now lines.entry.starts.now counts }
{
    Failure {
        criterion: 1,
        state: lines.initial_number(counts),
        row: 0,
        sum: 0,
    }
}

// How the design is accepted, if it is: by whether an internal row is enabled in the initial state.
pub fn acceptance(lines: Lent, counts: Counts) -> Acceptance
    ensures { result ≡ acceptance_in lines.entry.fields.now lines.entry.starts.now counts }
{
    let shape = layout::shape_of(counts);
    let initial = steps::initial_state(lines, shape.implementation);
    if no_internal(lines, shape, &initial) {
        Acceptance::AsIs
    } else {
        Acceptance::AfterInternal
    }
}

// The initial state meets it.
fn meets(lines: Lent, shape: Shape) -> bool
    ensures { result ≡ start_meets lines.entry.fields.now lines.entry.starts.now shape }
{
    let v = steps::initial_state(lines, shape.implementation);
    let t = steps::mapped(lines, shape, &v);
    let u = steps::initial_state(lines, shape.specification);
    let n = shape.specification.parameters.count;
    let holds = steps::invariant(lines, shape, &v) & defined::invariant(lines, shape, &v);
    holds & (steps::same(n, &t, &u) & defined::mapping(lines, shape, &v))
}

// No internal row is enabled in the state, marked or not.
fn no_internal(lines: Lent, shape: Shape, v: &limits::Values) -> bool
    ensures { result ≡ no_internal_b (design_at lines.entry.fields.now lines.entry.starts.now shape) v.now }
{
    for i in 0..shape.implementation.rows.count {
        if !no_internal_row(lines, shape, i as u16 + 1, v) {
            return false;
        }
    }
    true
}

// Row k is visible, or enabled for no sum value.
fn no_internal_row(lines: Lent, shape: Shape, k: u16, v: &limits::Values) -> bool
    ensures { result ≡ no_internal_row (design_at lines.entry.fields.now lines.entry.starts.now shape) v.now k }
{
    let span = steps::row_span(lines, shape.implementation, k);
    for sum in 0..span {
        let step = steps::row_step(lines, shape.implementation, k, v, sum);
        if step.action != 0 {
            return true;
        }
        if step.enabled {
            return false;
        }
    }
    true
}
