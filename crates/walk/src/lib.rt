// The walk over the states of the design in a desk's arrays: criteria 2 to 10 at n states from a place on, by a plan that is made once for
// the design; and the whole check, criterion 1 before all states. Every public function answers any arrays, any counts and any numbers.
// What a walk is, and what the examination of a state, is in the crates foundation and decision.
#![tactic(auto)]

ghost use Rattle.std.specs.Prelude.{◌≡◌, ◌+◌, ◌≤◌, ◌<◌, min};
ghost use Rattle.layout.specs.Sizes.{Fits, state_count_in};
ghost use Rattle.walk.specs.Told.{told, told_walked, no_walk, named_by, lacking_at};
ghost use Rattle.walk.specs.Walk.{plan_of, walked_under, checked_in};
ghost use Rattle.criteria.specs.Design.{states};
ghost use Rattle.design.specs.Loaded.{design_at};
ghost use Rattle.walk.specs.Examine.{inside_at, examine_in, walk_on};
ghost use Rattle.plan.specs.Plan.{plan_in};
ghost use Rattle.walk.specs.Turns.{Planned, Ready, Knows, TurnIs};

use design::{Counts, Shape};
use layout::Lent;
use verdicts::{Failure, Outcome, Place, Walked};

// How many numbers a plan has.
pub const PLAN_LENGTH: usize = plan::LENGTH;

// The plan for a walk: what does not change from state to state.
pub fn plan(lines: Lent, counts: Counts) -> [u16; PLAN_LENGTH]
    ensures { result ≡ plan_of lines.entry.fields.now lines.entry.starts.now counts }
{
    plan::plan(lines, layout::shape_of(counts))
}

// The walk by a plan over n states from number `from` on, where there are so many; else no state is walked.
pub fn walk(lines: Lent, counts: Counts, plan: &[u16; PLAN_LENGTH], from: usize, n: usize) -> Walked
    ensures { result ≡ walked_under lines.entry.fields.now lines.entry.starts.now counts plan.now n from }
{
    let most = walkable(lines, counts);
    if most < from {
        return no_walk();
    }
    if most - from < n {
        return no_walk();
    }
    let shape = layout::shape_of(counts);
    if n < LONG {
        return walk_on(lines, shape, plan, from, n);
    }
    if limits::MAX_STATES < lines.state_count(counts) {
        return walk_on(lines, shape, plan, from, n);
    }
    let own = plan::plan(lines, shape);
    if *plan != own {
        return walk_on(lines, shape, plan, from, n);
    }
    long_walk(lines, shape, plan, from, n)
}

// The whole check: criterion 1, then all states.
pub fn check(lines: Lent, counts: Counts) -> Outcome
    ensures { result ≡ checked_in lines.entry.fields.now lines.entry.starts.now counts }
{
    if !start::holds(lines, counts) {
        return Outcome::Fail(start::failure(lines, counts));
    }
    let plan = plan(lines, counts);
    let total = lines.state_count(counts);
    let walked = walk(lines, counts, &plan, 0, total);
    walked.outcome
}

// So many states are a long walk: less would not pay for what is worked out before.
const LONG: usize = 256;

// A long walk by the plan of the arrays, by turns if nothing could lack a value.
fn long_walk(lines: Lent, shape: Shape, plan: &[u16; PLAN_LENGTH], from: usize, n: usize) -> Walked
    requires fits { Fits shape }
    requires plan_value { plan.now ≡ plan_in lines.fields.now lines.starts.now shape }
    requires shape_bound { states (design_at lines.fields.now lines.starts.now shape) ≤ 65536 }
    requires n_bound { from + n ≤ states (design_at lines.fields.now lines.starts.now shape) }
    ensures { told_walked result ≡ walk_on lines.entry.fields.now lines.entry.starts.now shape plan.now n from }
{
    if row_plan::unsure(plan) != 0 {
        return walk_on(lines, shape, plan, from, n);
    }
    walk_by_turns(lines, shape, plan, from, n)
}

// How many states may be walked.
fn walkable(lines: Lent, counts: Counts) -> usize
    ensures { result ≡ min (state_count_in lines.entry.fields.now lines.entry.starts.now counts) 65536 }
{
    lines.state_count(counts).min(limits::MAX_STATES)
}

// A walk over no state.
fn no_walk() -> Walked
    ensures { told_walked result ≡ no_walk }
{
    Walked {
        outcome: Outcome::Pass,
        count: 0,
    }
}

// The states from number `from` on, n of them, up to the first that fails.
fn walk_on(lines: Lent, shape: Shape, plan: &[u16; PLAN_LENGTH], from: usize, n: usize) -> Walked
    requires fits { Fits shape }
    requires n_bound { from + n ≤ 65536 }
    ensures { told_walked result ≡ walk_on lines.entry.fields.now lines.entry.starts.now shape plan.now n from }
{
    for i in 0..n {
        let o = examine(lines, shape, plan, (from + i) as u16);
        if let Outcome::Fail(_) = o {
            return Walked {
                outcome: o,
                count: i + 1,
            };
        }
    }
    Walked {
        outcome: Outcome::Pass,
        count: n,
    }
}

// ---- a walk that keeps what it knows

// What a turn comes to: no failure, and which number is the next to look at; or the failure of the state that it began with. And whether a
// block was looked for in vain.
#[derive(Clone, Copy)]
pub struct Turn {
    pub outcome: Outcome,
    pub next: usize,
    pub vain: bool,
}

// One turn, from the state with a number: outside the invariant it goes past the block of states that the same part of it rules out, if that is
// to be sought. Inside, if what is known is to be kept, a state that passes by it needs no examination; every other is examined, and nothing
// is known after it.
fn take_turn(
    lines: Lent,
    shape: Shape,
    plan: &[u16; PLAN_LENGTH],
    sets: &[u16; recall::SETS],
    number: u16,
    seek: bool,
    keep: bool,
    last: &mut limits::Values,
    t: &mut limits::Values,
    watch: &mut [u16; recall::WATCH],
) -> Turn
    requires ready { Ready lines.fields.now lines.starts.now shape plan.now sets.now }
    requires number_bound { number < states (design_at lines.fields.now lines.starts.now shape) }
    requires knows { Knows lines.fields.now lines.starts.now shape watch.old t.old last.old }
    ensures turn_is { TurnIs lines.entry.fields.now lines.entry.starts.now shape plan.now number result }
    ensures knows_2 { Knows lines.entry.fields.now lines.entry.starts.now shape watch.new t.new last.new }
{
    let mut v = [0u16; limits::MAX_PARAMETERS];
    steps::put_state(lines, shape.implementation, number, &mut v);
    let inside = steps::invariant(lines, shape, &v);
    let next = number as usize + 1;
    if !inside {
        if !seek {
            return Turn {
                outcome: Outcome::Pass,
                next: next,
                vain: false,
            };
        }
        let past = blocks::past(lines, shape, number, &v);
        return Turn {
            outcome: Outcome::Pass,
            next: past,
            vain: past == next,
        };
    }
    if !keep {
        return Turn {
            outcome: examine_inside(lines, shape, plan, number, &v),
            next: next,
            vain: false,
        };
    }
    if recall::passes(lines, shape, plan, sets, last, &v, t, watch) {
        *last = v;
        return Turn {
            outcome: Outcome::Pass,
            next: next,
            vain: false,
        };
    }
    *watch = recall::forgotten();
    Turn {
        outcome: examine_inside(lines, shape, plan, number, &v),
        next: next,
        vain: false,
    }
}

// For so many states no block is sought after one that was looked for in vain: where the parts of the invariant read the last parameters, every
// block is a state alone, and to look for one costs more than to evaluate the invariant.
const PAUSE: usize = 64;

// The states from number `from` on, n of them, up to the first that fails, by turns.
fn walk_by_turns(
    lines: Lent,
    shape: Shape,
    plan: &[u16; PLAN_LENGTH],
    from: usize,
    n: usize,
) -> Walked
    requires fits { Fits shape }
    requires planned { Planned lines.fields.now lines.starts.now shape plan.now }
    requires n_bound { from + n ≤ states (design_at lines.fields.now lines.starts.now shape) }
    ensures { told_walked result ≡ walk_on lines.entry.fields.now lines.entry.starts.now shape plan.now n from }
{
    let sets = recall::sets(lines, shape);
    let keep = recall::pays(&sets, shape.implementation);
    let mut watch = recall::forgotten();
    let mut last = [0u16; limits::MAX_PARAMETERS];
    let mut t = [0u16; limits::MAX_PARAMETERS];
    let end = from + n;
    let mut at = from;
    let mut wait = from;
    // no range: each turn says which number is the next
    while at < end {
        let step = take_turn(
            lines,
            shape,
            plan,
            &sets,
            at as u16,
            wait <= at,
            keep,
            &mut last,
            &mut t,
            &mut watch,
        );
        let o = step.outcome;
        if let Outcome::Fail(_) = o {
            return Walked {
                outcome: o,
                count: at - from + 1,
            };
        }
        if step.vain {
            wait = at + PAUSE;
        }
        at = step.next;
    }
    Walked {
        outcome: Outcome::Pass,
        count: n,
    }
}

// One state examined: no failure, or its lowest: criterion 10 first, and of the rest only a state that `state_passes` doesn't let pass is
// searched. Outside the invariant nothing more is tried.
fn examine(lines: Lent, shape: Shape, plan: &[u16; PLAN_LENGTH], number: u16) -> Outcome
    requires { Fits shape }
    ensures { told result ≡ examine_in lines.entry.fields.now lines.entry.starts.now shape plan.now number }
{
    let mut v = [0u16; limits::MAX_PARAMETERS];
    steps::put_state(lines, shape.implementation, number, &mut v);
    if !tenth::holds(lines, shape, plan, &v) {
        return lacking(number);
    }
    if !steps::invariant(lines, shape, &v) {
        return Outcome::Pass;
    }
    examine_inside(lines, shape, plan, number, &v)
}

// The same of a state v of the invariant where all have values.
fn examine_inside(
    lines: Lent,
    shape: Shape,
    plan: &[u16; PLAN_LENGTH],
    number: u16,
    v: &limits::Values,
) -> Outcome
    requires { Fits shape }
    ensures { told result ≡ inside_at lines.entry.fields.now lines.entry.starts.now shape plan.now number v.now }
{
    let mut t = [0u16; limits::MAX_PARAMETERS];
    steps::put_mapped(lines, shape, v, &mut t);
    if state_passes::passes(lines, shape, plan, v, &t) {
        return Outcome::Pass;
    }
    named(number, lowest_failure::lowest(lines, shape, *v))
}

// The failure of criterion 10 at the state with a number.
fn lacking(number: u16) -> Outcome
    ensures { told result ≡ lacking_at number }
{
    Outcome::Fail(Failure {
        criterion: 10,
        state: number,
        row: 0,
        sum: 0,
    })
}

// The place of failure with the number of the state.
fn named(number: u16, found: Option<Place>) -> Outcome
    ensures { told result ≡ named_by number found }
{
    match found {
        None => Outcome::Pass,
        Some(place) => Outcome::Fail(Failure {
            criterion: place.criterion,
            state: number,
            row: place.row,
            sum: place.sum,
        }),
    }
}
