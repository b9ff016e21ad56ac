// The states that an advance on an open desk examines, on the desk's arrays: the phase that they leave, the next state, and how many there were
// (01, "The desk"). It answers any arrays, any counts, any plan and any place; what it computes is in specs/Examined.
#![tactic(auto)]

ghost use Rattle.std.specs.Prelude.{◌≡◌};
ghost use Rattle.examining.specs.Examined.{ahead, examined_next, examined_from};

use answers::Phase;
use design::Counts;
use layout::Lent;

// The phase after the states, the number of the next one, and how many were examined.
#[derive(Clone, Copy)]
pub struct Examined {
    pub phase: Phase,
    pub next: usize,
    pub count: usize,
}

// The next n states, or those that remain. Criterion 1 comes before state 0, in the first advance; if it fails, no state is examined.
pub fn examine(
    lines: Lent,
    counts: Counts,
    plan: &[u16; walk::PLAN_LENGTH],
    next: usize,
    n: u64,
) -> Examined
    ensures { result ≡ examined_from lines.entry.fields.now lines.entry.starts.now counts plan.now next n }
{
    if next == 0 {
        if start::holds(lines, counts) {
            return examine_next(lines, counts, plan, next, n);
        }
        let failure = start::failure(lines, counts);
        return Examined {
            phase: Phase::Failed(failure),
            next: 0,
            count: 0,
        };
    }
    examine_next(lines, counts, plan, next, n)
}

// The same without criterion 1: failed, accepted if the last state is done, or still open.
fn examine_next(
    lines: Lent,
    counts: Counts,
    plan: &[u16; walk::PLAN_LENGTH],
    next: usize,
    n: u64,
) -> Examined
    ensures { result ≡ examined_next lines.entry.fields.now lines.entry.starts.now counts plan.now next n }
{
    let total = lines.state_count(counts);
    let k = ahead(n, next, total);
    let walked = walk::walk(lines, counts, plan, next, k);
    let outcome = walked.outcome;
    let count = walked.count;
    let at = next + count;
    let ended = total <= at;
    let phase = phases::after(lines, counts, outcome, ended);
    Examined {
        phase,
        next: at,
        count,
    }
}

// The states that an advance by n examines.
fn ahead(n: u64, next: usize, total: usize) -> usize
    ensures { result ≡ ahead n next total }
{
    n.min(total.saturating_sub(next) as u64) as usize
}
