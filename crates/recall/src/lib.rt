// Whether a state passes, by what is known from the states before it and by a look at what may have changed: a row that kept its criteria in the
// last state of the invariant keeps them until something that they watch differs (crate watched). A state that is said to pass passes;
// of one that isn't nothing is said. It is for designs in which nothing lacks a value. What is known is said in specs/Recall.
#![tactic(auto)]

ghost use Rattle.std.specs.Prelude.{◌≡◌, ◌+◌, ◌<◌, ◌≤◌, IfSome};
ghost use Rattle.watched.specs.Watched.{map_reads};
ghost use Rattle.design.specs.Loaded.{design_at};
ghost use Rattle.layout.specs.Sizes.{Fits};
ghost use Rattle.steps.specs.Arrays.{padded, mapped_in, measure_in};
ghost use Rattle.recall.specs.Recall.{When, SetsAre, SetsTo, since, Task, idle_in, look_inside, noted_in, row_passes_in, RowsCarried, RowsTo, reply_noted_in, reply_passes_in, RepliesCarried, RepliesTo, MappedCarried, MappedTo, Recalls, Passed, Forgets};

use design::{Process, Shape};
use layout::Lent;

// What was seen of a row: where it keeps its criteria, whether it has no marked step; and what that depends on.
#[derive(Clone, Copy)]
pub struct Look {
    pub seen: Option<bool>,
    pub watch: u16,
}

// What depends on what: for each row of the implementation what enables it, then for each what its criteria watch, then for each row of the
// specification what the reply to it watches; then what the mapping reads.
pub const SETS: usize = 3 * limits::MAX_ROWS + 1;

// Stores the sets of the rows of the implementation.
fn put_rows(lines: Lent, shape: Shape, mapping: &limits::Values, out: &mut [u16; SETS])
    requires fits { Fits shape }
    requires mapping_value { mapping.now ≡ padded (map_reads (design_at lines.fields.now lines.starts.now shape)) }
    ensures { SetsTo (design_at lines.entry.fields.now lines.entry.starts.now shape) out.new shape.implementation.rows.count 0 }
{
    for i in 0..shape.implementation.rows.count {
        let k = i as u16 + 1;
        out[i as usize] = watches::enabling(lines, shape, k);
        out[limits::MAX_ROWS + i as usize] = watches::watched(lines, shape, mapping, k);
    }
}

// Stores those of the rows of the specification.
fn put_replies(lines: Lent, shape: Shape, mapping: &limits::Values, out: &mut [u16; SETS])
    requires fits { Fits shape }
    requires mapping_value { mapping.now ≡ padded (map_reads (design_at lines.fields.now lines.starts.now shape)) }
    requires sets_to { SetsTo (design_at lines.fields.now lines.starts.now shape) out.old shape.implementation.rows.count 0 }
    ensures { SetsTo (design_at lines.entry.fields.now lines.entry.starts.now shape) out.new shape.implementation.rows.count shape.specification.rows.count }
{
    for i in 0..shape.specification.rows.count {
        out[2 * limits::MAX_ROWS + i as usize] = watches::reply_watched(
            lines,
            shape,
            mapping,
            i as u16 + 1,
        );
    }
}

// The sets of a design.
pub fn sets(lines: Lent, shape: Shape) -> [u16; SETS]
    requires { Fits shape }
    ensures { SetsAre (design_at lines.entry.fields.now lines.entry.starts.now shape) result }
{
    let mapping = watches::mapping_reads(lines, shape);
    let mut out = [0u16; SETS];
    put_rows(lines, shape, &mapping, &mut out);
    put_replies(lines, shape, &mapping, &mut out);
    out[SETS - 1] = watches::mapping_watched(lines, shape, &mapping);
    out
}

// Whether it pays to keep what is known: not where three rows in four are enabled by the last parameter, which changes from state to state, so
// that these are looked at in every state. Nothing is promised of it.
pub fn pays(sets: &[u16; SETS], implementation: Process) -> bool
    requires { implementation.rows.count ≤ 32 }
{
    let places = implementation.parameters.count;
    if places == 0 {
        return true;
    }
    let last = reads::only(places as u16 - 1);
    let mut restless = 0u16;
    for i in 0..implementation.rows.count {
        if sets[i as usize] & last != 0 {
            restless += 1;
        }
    }
    4 * restless < 3 * (implementation.rows.count as u16)
}

// Whether row i of the implementation is not enabled, as far as a look at its condition for one sum value tells.
fn idle(
    lines: Lent,
    shape: Shape,
    plan: &[u16; row_plan::LENGTH],
    i: u8,
    v: &limits::Values,
) -> bool
    requires { i < 32 }
    ensures { result ≡ idle_in lines.entry.fields.now lines.entry.starts.now shape plan.now i v.now }
{
    let line = steps::line_of(lines.starts, shape.implementation, i as u16 + 1);
    let conjuncts = row_plan::front(plan, i as usize);
    let front = conjuncts::guard(lines.fields, line as usize + 3, v, 0, conjuncts);
    if !front.holds {
        return true;
    }
    let planned = row_plan::planned(plan, i as usize);
    if !planned.free {
        return false;
    }
    let on = eval::formula(lines.fields, front.at, v, 0, front.depth);
    !on.holds
}

// A look at row i.
fn look_at(
    lines: Lent,
    shape: Shape,
    plan: &[u16; row_plan::LENGTH],
    sets: &[u16; SETS],
    i: u8,
    v: &limits::Values,
    t: &limits::Values,
    m: u16,
) -> Look
    requires i_bound { i < 32 }
    requires m_value { m ≡ measure_in lines.fields.now lines.starts.now shape v.now }
    ensures { result ≡ look_inside lines.entry.fields.now lines.entry.starts.now shape plan.now sets.now i v.now t.now }
{
    if idle(lines, shape, plan, i, v) {
        return Look {
            seen: Some(true),
            watch: sets[i as usize],
        };
    }
    Look {
        seen: state_passes::rows_seen_between(lines, shape, plan, i, i + 1, v, t, m),
        watch: sets[limits::MAX_ROWS + i as usize],
    }
}

// What is written beside the rows of the implementation, then beside those of the specification, beside the mapping; then for each row of the
// implementation 1 if it has a marked step.
pub const WATCH: usize = 3 * limits::MAX_ROWS + 1;

const MAPPING: usize = 2 * limits::MAX_ROWS;

const LOUD: usize = MAPPING + 1;

// Row i by what is known of it, or by a look, which is noted.
fn row_passes(
    lines: Lent,
    shape: Shape,
    plan: &[u16; row_plan::LENGTH],
    sets: &[u16; SETS],
    changed: u16,
    i: u8,
    v: &limits::Values,
    t: &limits::Values,
    m: u16,
    watch: &mut [u16; WATCH],
) -> bool
    requires i_bound { i < 32 }
    requires m_value { m ≡ measure_in lines.fields.now lines.starts.now shape v.now }
    ensures value { result ≡ row_passes_in lines.entry.fields.now lines.entry.starts.now shape plan.now sets.now changed i v.now t.now watch.old }
    ensures watch_after { watch.new ≡ noted_in lines.entry.fields.now lines.entry.starts.now shape plan.now sets.now changed i v.now t.now watch.old }
{
    let known = watch[i as usize];
    if known & changed == 0 {
        return true;
    }
    let look = look_at(lines, shape, plan, sets, i, v, t, m);
    watch[i as usize] = look.watch;
    watch[LOUD + i as usize] = u16::from(!look.seen.unwrap_or(false));
    look.seen.is_some()
}

// All of them: where all hold, whether none is known to have a marked step.
fn rows_pass(
    lines: Lent,
    shape: Shape,
    plan: &[u16; row_plan::LENGTH],
    sets: &[u16; SETS],
    changed: u16,
    v: &limits::Values,
    t: &limits::Values,
    m: u16,
    watch: &mut [u16; WATCH],
) -> Option<bool>
    requires task { Task lines.fields.now lines.starts.now shape plan.now sets.now v.now }
    requires t_value { t.now ≡ mapped_in lines.fields.now lines.starts.now shape v.now }
    requires m_value { m ≡ measure_in lines.fields.now lines.starts.now shape v.now }
    requires rows_carried { RowsCarried lines.fields.now lines.starts.now shape changed watch.old v.now }
    ensures { IfSome result (λ quiet. RowsTo lines.entry.fields.now lines.entry.starts.now shape watch.old v.now watch.new shape.implementation.rows.count quiet) }
{
    let mut quiet = true;
    for i in 0..shape.implementation.rows.count {
        if !row_passes(lines, shape, plan, sets, changed, i, v, t, m, watch) {
            return None;
        }
        quiet = quiet & (watch[LOUD + i as usize] == 0);
    }
    Some(quiet)
}

// ---- the rows of the specification

// Nothing is known.
const UNKNOWN: u16 = 256;

// The reply to row i by what is known of it, or at a focus point by a look, which is noted; elsewhere it is forgotten.
fn reply_passes(
    lines: Lent,
    shape: Shape,
    plan: &[u16; row_plan::LENGTH],
    sets: &[u16; SETS],
    changed: u16,
    quiet: bool,
    i: u8,
    v: &limits::Values,
    t: &limits::Values,
    watch: &mut [u16; WATCH],
) -> bool
    requires { i < 32 }
    ensures value { result ≡ reply_passes_in lines.entry.fields.now lines.entry.starts.now shape plan.now changed quiet i v.now t.now watch.old }
    ensures watch_after { watch.new ≡ reply_noted_in sets.now changed quiet i watch.old }
{
    let at = limits::MAX_ROWS + i as usize;
    let known = watch[at];
    if known & changed == 0 {
        return true;
    }
    if !quiet {
        watch[at] = UNKNOWN;
        return true;
    }
    watch[at] = sets[limits::MAX_ROWS + at];
    state_passes::rows_replied_between(lines, shape, plan, i, i + 1, v, t)
}

// All of them.
fn replies_pass(
    lines: Lent,
    shape: Shape,
    plan: &[u16; row_plan::LENGTH],
    sets: &[u16; SETS],
    changed: u16,
    quiet: bool,
    v: &limits::Values,
    t: &limits::Values,
    watch: &mut [u16; WATCH],
) -> bool
    requires task { Task lines.fields.now lines.starts.now shape plan.now sets.now v.now }
    requires t_value { t.now ≡ mapped_in lines.fields.now lines.starts.now shape v.now }
    requires replies_carried { RepliesCarried lines.fields.now lines.starts.now shape changed watch.old v.now }
    ensures { When result (RepliesTo lines.entry.fields.now lines.entry.starts.now shape watch.old v.now watch.new shape.specification.rows.count quiet) }
{
    for i in 0..shape.specification.rows.count {
        if !reply_passes(lines, shape, plan, sets, changed, quiet, i, v, t, watch) {
            return false;
        }
    }
    true
}

// ---- the mapping

// The mapped state by what is known of it, or anew, and whether it is in size.
fn mapping_passes(
    lines: Lent,
    shape: Shape,
    plan: &[u16; row_plan::LENGTH],
    sets: &[u16; SETS],
    changed: u16,
    v: &limits::Values,
    t: &mut limits::Values,
    watch: &mut [u16; WATCH],
) -> bool
    requires task { Task lines.fields.now lines.starts.now shape plan.now sets.now v.now }
    requires mapped_carried { MappedCarried lines.fields.now lines.starts.now shape changed watch.old t.old v.now }
    ensures { When result (MappedTo lines.entry.fields.now lines.entry.starts.now shape watch.old v.now watch.new t.new) }
{
    let known = watch[MAPPING];
    if known & changed == 0 {
        return true;
    }
    *t = [0u16; limits::MAX_PARAMETERS];
    steps::put_mapped(lines, shape, v, t);
    watch[MAPPING] = sets[SETS - 1];
    steps::below(lines, shape.specification, t)
}

// ---- the state

// Nothing is known of anything.
pub fn forgotten() -> [u16; WATCH]
    ensures { Forgets result }
{
    [UNKNOWN; WATCH]
}

// In what v differs from the last state, and that there was one.
fn since(last: &limits::Values, v: &limits::Values) -> u16
    ensures { result ≡ since last.now v.now }
{
    UNKNOWN | reads::differ(last, v)
}

// Whether the state v passes, as far as is known from the last one and seen now. Where it does, what is known is that from v on.
pub fn passes(
    lines: Lent,
    shape: Shape,
    plan: &[u16; row_plan::LENGTH],
    sets: &[u16; SETS],
    last: &limits::Values,
    v: &limits::Values,
    t: &mut limits::Values,
    watch: &mut [u16; WATCH],
) -> bool
    requires task { Task lines.fields.now lines.starts.now shape plan.now sets.now v.now }
    requires recalls { Recalls lines.fields.now lines.starts.now shape watch.old t.old last.now }
    ensures { When result (Passed lines.entry.fields.now lines.entry.starts.now shape v.now watch.new t.new) }
{
    let changed = since(last, v);
    if !mapping_passes(lines, shape, plan, sets, changed, v, t, watch) {
        return false;
    }
    let m = steps::measure(lines, shape, v);
    let Some(quiet) = rows_pass(lines, shape, plan, sets, changed, v, t, m, watch) else {
        return false;
    };
    replies_pass(lines, shape, plan, sets, changed, quiet, v, t, watch)
}
