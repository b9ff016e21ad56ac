// The length of the longest run of marked steps from each state in which the invariant holds, or a state on a loop of them: depth first, with
// one look at each state, internal row and sum value, and at most one more for each state. What is written is in specs/Runs, for any steps by
// number; which steps those are is in the crate marked_edges.
#![tactic(auto)]

ghost use Rattle.std.specs.Prelude.{◌≡◌, ℕ, ◌≤◌, length};
ghost use Rattle.layout.specs.Sizes.{Fits};
ghost use Rattle.plan.specs.Plan.{plan_in};
ghost use Rattle.marked_edges.specs.Edges.{leads_in, next_in};
ghost use Rattle.longest_runs.specs.Runs.{Written};
ghost use Rattle.longest_runs.specs.Search.{Cleared, ReadyIn, SeenIn, Fresh};

use design::Shape;
use layout::Lent;
use marked_edges::Edge;

// Room for a number for each state.
pub const STATES: usize = limits::MAX_STATES;

// The mark of a state all of whose steps are settled.
const DONE: u16 = marked_edges::EDGES as u16 + 1;

// How far a state's steps are settled: the longest run by these has length `best`, and the next one, if one is left, leads to a state that is
// not done.
#[derive(Clone, Copy)]
struct Sight {
    best: u16,
    step: Option<Edge>,
}

// Writes the lengths for the first n states, or zeros and gives a state on a loop.
pub fn fill(
    lines: Lent,
    shape: Shape,
    plan: &[u16; row_plan::LENGTH],
    n: usize,
    out: &mut [u16],
) -> Result<(), u16>
    requires fits { Fits shape }
    requires plan_value { plan.now ≡ plan_in lines.fields.now lines.starts.now shape }
    requires n_bound { n ≤ 65536 }
    requires n_in_bounds { n ≤ length out.old }
    ensures { Written (next_in lines.entry.fields.now lines.entry.starts.now shape) n out.old out.new result }
{
    let mut mark = [0u16; STATES];
    let mut path = [0u16; STATES];
    clear(out, n);
    search(lines, shape, plan, n, &mut mark, &mut path, out)
}

// Zero in the first n places.
fn clear(out: &mut [u16], n: usize)
    requires { n ≤ length out.old }
    ensures { Cleared n out.old out.new }
{
    out[..n].fill(0);
}

// Depth first. In `path` are the states on the way, each of which leads to the next. A state's mark is 0 as long as the search has not come
// to it, DONE when all its steps are settled, and else one more than the number of those that are; the longest run by these is in `out`.
fn search(
    lines: Lent,
    shape: Shape,
    plan: &[u16; row_plan::LENGTH],
    n: usize,
    mark: &mut [u16; STATES],
    path: &mut [u16; STATES],
    out: &mut [u16],
) -> Result<(), u16>
    requires fits { Fits shape }
    requires plan_value { plan.now ≡ plan_in lines.fields.now lines.starts.now shape }
    requires fresh { Fresh n mark.old path.old out.old }
    ensures { Written (next_in lines.entry.fields.now lines.entry.starts.now shape) n out.old out.new result }
{
    let mut depth = 0;
    let mut root = 0;
    // no range: a turn goes on, back, or to the next root
    loop {
        if depth == 0 {
            if root == n {
                return Ok(());
            }
            if mark[root] == 0 {
                mark[root] = 1;
                path[0] = root as u16;
                depth = 1;
            } else {
                root += 1;
            }
        } else {
            let s = usize::from(path[depth - 1]);
            let seen = look(lines, shape, plan, n, s, mark, out);
            out[s] = seen.best;
            if let Some(step) = seen.step {
                let to = step.to;
                mark[s] = (step.edge + 1) as u16;
                if mark[to] != 0 {
                    clear(out, n);
                    return Err(to as u16);
                }
                mark[to] = 1;
                path[depth] = to as u16;
                depth += 1;
            } else {
                mark[s] = DONE;
                depth -= 1;
            }
        }
    }
}

// The steps of s from the first that is not settled on, up to one that leads to a state that is not done. Outside the invariant there are
// none.
fn look(
    lines: Lent,
    shape: Shape,
    plan: &[u16; row_plan::LENGTH],
    n: usize,
    s: usize,
    mark: &[u16; STATES],
    out: &[u16],
) -> Sight
    requires fits { Fits shape }
    requires plan_value { plan.now ≡ plan_in lines.fields.now lines.starts.now shape }
    requires ready_in { ReadyIn lines.fields.now lines.starts.now shape n mark.now out.now s }
    ensures { SeenIn lines.entry.fields.now lines.entry.starts.now shape n mark.now out.now s result }
{
    let v = steps::state(lines, shape.implementation, s as u16);
    if !steps::invariant(lines, shape, &v) {
        return Sight {
            best: out[s],
            step: None,
        };
    }
    look_at(lines, shape, plan, n, s, &v, mark, out)
}

// The same where the invariant holds, v being the values of s.
fn look_at(
    lines: Lent,
    shape: Shape,
    plan: &[u16; row_plan::LENGTH],
    n: usize,
    s: usize,
    v: &limits::Values,
    mark: &[u16; STATES],
    out: &[u16],
) -> Sight
    requires fits { Fits shape }
    requires plan_value { plan.now ≡ plan_in lines.fields.now lines.starts.now shape }
    requires ready_in { ReadyIn lines.fields.now lines.starts.now shape n mark.now out.now s }
    requires by_index { (j : ℕ) → next_in lines.fields.now lines.starts.now shape s j ≡ leads_in lines.fields.now lines.starts.now shape v.now j }
    ensures { SeenIn lines.entry.fields.now lines.entry.starts.now shape n mark.now out.now s result }
{
    let mut best = out[s];
    let mut k = usize::from(mark[s]) - 1;
    while let Some(step) = marked_edges::next(lines, shape, plan, v, k) {
        let to = step.to;
        k = step.edge + 1;
        if to < n {
            if mark[to] != DONE {
                return Sight {
                    best,
                    step: Some(step),
                };
            }
            best = best.max(out[to] + 1);
        }
    }
    Sight { best, step: None }
}
