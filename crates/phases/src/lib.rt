// The phase that a walk over states leaves a check in: failed, open while states are left, or accepted, one way or the other, by a look at the
// initial state. It answers any arrays and any counts; what it computes is in specs/Phases.
#![tactic(auto)]

ghost use Rattle.std.specs.Prelude.{◌≡◌};
ghost use Rattle.start.specs.Start.{acceptance_in};
ghost use Rattle.phases.specs.Phases.{phase_after};

use answers::Phase;
use design::Counts;
use layout::Lent;
use verdicts::Outcome;

// The phase after a walk with this outcome; `ended` if no state is left. Only a check that ends well looks at the initial state.
pub fn after(lines: Lent, counts: Counts, outcome: Outcome, ended: bool) -> Phase
    ensures { result ≡ phase_after outcome ended (acceptance_in lines.entry.fields.now lines.entry.starts.now counts) }
{
    match outcome {
        Outcome::Fail(failure) => Phase::Failed(failure),
        Outcome::Pass => {
            if ended {
                let how = start::acceptance(lines, counts);
                Phase::Accepted(how)
            } else {
                Phase::Open
            }
        }
    }
}
