// Which parameters decide whether a row keeps its criteria, from a desk's arrays: the sets of watched/specs/Watched. They are worked out once
// for a walk. What the mapped values read is asked for first and handed on, so that the line of the mapping is read once.
#![tactic(auto)]

ghost use Rattle.std.specs.Prelude.{◌≡◌, map, ◌-◌, ◌<◌, ◌≤◌, get_or, drop};
ghost use Rattle.std.specs.Int.Bits.{bit_and};
ghost use Rattle.terms.specs.Tree.{Value};
ghost use Rattle.terms.specs.Read.{read_v, read_f};
ghost use Rattle.reads.specs.Reads.{reads_v, reads_f};
ghost use Rattle.criteria.specs.Rows.{row_at, mark_of};
ghost use Rattle.decision.specs.Tests.{partner};
ghost use Rattle.design.specs.Line.{values_in};
ghost use Rattle.design.specs.Loaded.{process_in, design_at};
ghost use Rattle.layout.specs.Sizes.{Fits};
ghost use Rattle.steps.specs.Arrays.{padded, first_values};
ghost use Rattle.watched.specs.Watched.{all_of, meeting, after_f, map_reads, through_from, stays, follows_at, follows_from, enabling, internal_watched, visible_watched, watched, reply_watched};
ghost use Rattle.watches.specs.Watches.{no_parts, PartsOf, changed_of, after_seen};

use design::{Process, Shape};
use layout::Lent;
use reads::Seen;

// The mark of a conjunction.
const AND: u16 = 15;

// A row: its action, what its condition and its data read, where its next values stand, and how many these are.
#[derive(Clone, Copy)]
struct Parts {
    action: u16,
    condition: u16,
    carries: u16,
    next: usize,
    count: u8,
}

// Which parameters a row's next values may change, and what those read that do.
#[derive(Clone, Copy)]
struct Changed {
    changes: u16,
    by: u16,
}

// ---- sets

// What is in the first and not in the second.
fn without(a: u16, c: u16) -> u16
    ensures { result ≡ a - bit_and a c }
{
    a - (a & c)
}

// A set where it meets what is changed, else nothing.
fn meeting(changed: u16, set: u16) -> u16
    ensures { result ≡ meeting changed set }
{
    reads::unless(set & changed == 0, set)
}

// ---- a step

// Row k of a process; where there is none it reads nothing, and has no next values.
fn row(lines: Lent, process: Process, k: u16) -> Parts
    ensures { PartsOf lines.entry.fields.now process.parameters.count (row_at (process_in lines.entry.fields.now lines.entry.starts.now process).rows k) result }
{
    if k == 0 {
        return no_row();
    }
    if (process.rows.count as u16) < k {
        return no_row();
    }
    let line = steps::line_of(lines.starts, process, k);
    let condition = reads::formula_reads(lines.fields, line as usize + 3, limits::MAX_DEPTH);
    let data = reads::value_reads(lines.fields, condition.next, limits::MAX_DEPTH);
    Parts {
        action: layout::field_of(lines.fields, line, 1),
        condition: condition.reads,
        carries: data.reads,
        next: data.next,
        count: process.parameters.count,
    }
}

fn no_row() -> Parts
    ensures { result ≡ no_parts }
{
    Parts {
        action: 0,
        condition: 0,
        carries: 0,
        next: 0,
        count: 0,
    }
}

// What n next values from a place on may change. `1 j` leaves parameter j as it is.
fn changing(fields: &limits::Fields, at: usize, n: u8) -> Changed
    ensures { result ≡ changed_of (values_in n (drop at fields.now)) }
{
    let mut changes = 0;
    let mut by = 0;
    let mut place = at;
    for i in 0..n {
        let j = i as u16;
        let same = reads::is_parameter(fields, place, j);
        let x = reads::value_reads(fields, place, limits::MAX_DEPTH);
        changes = changes | reads::unless(same, reads::only(j));
        by = by | reads::unless(same, x.reads);
        place = x.next;
    }
    Changed {
        changes: changes,
        by: by,
    }
}

// What decides whether the formula at a place, which held before the step, holds after it: part by part of a conjunction.
fn after(desk: &limits::Fields, at: usize, depth: usize, changed: u16) -> Seen
    ensures { result ≡ after_seen changed at (read_f depth (drop at desk.now)) }
{
    let fields: &[u16] = desk;
    if depth == 0 {
        return Seen { reads: 0, next: at };
    }
    if fields.len() <= at {
        return Seen { reads: 0, next: at };
    }
    if fields[at] != AND {
        let x = reads::formula_reads(desk, at, depth);
        return Seen {
            reads: without(meeting(changed, x.reads), changed),
            next: x.next,
        };
    }
    let f = after(desk, at + 1, depth - 1, changed);
    let g = after(desk, f.next, depth - 1, changed);
    Seen {
        reads: f.reads | g.reads,
        next: g.next,
    }
}

// ---- the mapping

// What each of n values from a place on reads.
fn values_reads(fields: &limits::Fields, at: usize, n: u8) -> limits::Values
    ensures { result ≡ padded (map (λ (t : Value). reads_v t) (values_in n (drop at fields.now))) }
{
    let m = steps::few(n);
    let mut out = [0u16; limits::MAX_PARAMETERS];
    let mut place = at;
    for i in 0..m {
        let x = reads::value_reads(fields, place, limits::MAX_DEPTH);
        out[i] = x.reads;
        place = x.next;
    }
    out
}

// What each mapped value reads.
pub fn mapping_reads(lines: Lent, shape: Shape) -> limits::Values
    ensures { result ≡ padded (map_reads (design_at lines.entry.fields.now lines.entry.starts.now shape)) }
{
    let line = lines.line(shape.mapping as usize);
    values_reads(
        lines.fields,
        line as usize + 1,
        shape.specification.parameters.count,
    )
}

// What n mapped values read.
fn all_of(mapping: &limits::Values, n: u8) -> u16
    ensures { result ≡ all_of (first_values n 0 mapping.now) }
{
    let mut found = 0;
    for i in 0..n {
        found = found | terms::parameter(mapping, i as u16);
    }
    found
}

// What the mapping reads.
pub fn mapping_watched(lines: Lent, shape: Shape, mapping: &limits::Values) -> u16
    requires fits { Fits shape }
    requires mapping_value { mapping.now ≡ padded (map_reads (design_at lines.fields.now lines.starts.now shape)) }
    ensures { result ≡ all_of (map_reads (design_at lines.entry.fields.now lines.entry.starts.now shape)) }
{
    all_of(mapping, shape.specification.parameters.count)
}

// What is read through the mapping, of n values, by one who reads these of the mapped values.
fn through(mapping: &limits::Values, n: u8, read: u16) -> u16
    ensures { result ≡ through_from 0 (first_values n 0 mapping.now) read }
{
    let mut found = 0;
    for i in 0..n {
        let j = i as u16;
        found = found | reads::unless(read & reads::only(j) == 0, terms::parameter(mapping, j));
    }
    found
}

// What decides whether each mapped value stays the same.
fn stays(mapping: &limits::Values, n: u8, changed: u16) -> u16
    ensures { result ≡ stays changed (first_values n 0 mapping.now) }
{
    let mut found = 0;
    for i in 0..n {
        found = found | meeting(changed, terms::parameter(mapping, i as u16));
    }
    found
}

// What decides whether mapped value i is after the step what the specification's next value at a place says, which reads the given set.
fn follows_at(
    fields: &limits::Fields,
    place: usize,
    read: u16,
    mapping: &limits::Values,
    n: u8,
    i: u16,
    changed: u16,
) -> u16
    requires { read ≡ reads_v (read_v 32 (drop place fields.now)).tree }
    ensures { result ≡ follows_at (first_values n 0 mapping.now) changed i (get_or mapping.now i 0) (read_v 32 (drop place fields.now)).tree }
{
    let set = terms::parameter(mapping, i);
    if reads::is_parameter(fields, place, i) {
        return meeting(changed, set);
    }
    without(set, changed) | through(mapping, n, read)
}

// The same for the first of n mapped values, as many as there are next values from a place on.
fn follows(
    fields: &limits::Fields,
    at: usize,
    count: u8,
    mapping: &limits::Values,
    n: u8,
    changed: u16,
) -> u16
    requires { count ≤ n }
    ensures { result ≡ follows_from (first_values n 0 mapping.now) changed 0 (first_values n 0 mapping.now) (values_in count (drop at fields.now)) }
{
    let mut found = 0;
    let mut place = at;
    for i in 0..count {
        let x = reads::value_reads(fields, place, limits::MAX_DEPTH);
        found = found | follows_at(fields, place, x.reads, mapping, n, i as u16, changed);
        place = x.next;
    }
    found
}

// ---- the rows of the implementation

// What decides whether row k is enabled.
pub fn enabling(lines: Lent, shape: Shape, k: u16) -> u16
    ensures { result ≡ enabling (design_at lines.entry.fields.now lines.entry.starts.now shape) k }
{
    let x = row(lines, shape.implementation, k);
    x.condition
}

// What decides whether the invariant, which held before the step, holds after it.
fn invariant_after(lines: Lent, shape: Shape, changed: u16) -> u16
    ensures { result ≡ after_f changed (design_at lines.entry.fields.now lines.entry.starts.now shape).invariant }
{
    let line = lines.line(shape.invariant as usize);
    let x = after(lines.fields, line as usize + 1, limits::MAX_DEPTH, changed);
    x.reads
}

// What the mark of the internal row k reads; without a line of marks each step is marked.
fn mark_reads(lines: Lent, shape: Shape, k: u16) -> u16
    requires k_nonzero { 0 < k }
    requires k_le_count { k ≤ shape.implementation.rows.count }
    requires k_value { (row_at (process_in lines.fields.now lines.starts.now shape.implementation).rows k).action ≡ 0 }
    ensures { result ≡ reads_f (mark_of (design_at lines.entry.fields.now lines.entry.starts.now shape) k) }
{
    if shape.marks.count == 0 {
        return 0;
    }
    let place = marks::place(lines, shape, k);
    let mark = reads::formula_reads(lines.fields, place, limits::MAX_DEPTH);
    mark.reads
}

// Criteria 4 and 5 of the internal row k.
fn internal(lines: Lent, shape: Shape, mapping: &limits::Values, k: u16, changed: u16) -> u16
    requires fits { Fits shape }
    requires mapping_value { mapping.now ≡ padded (map_reads (design_at lines.fields.now lines.starts.now shape)) }
    requires k_nonzero { 0 < k }
    requires k_le_count { k ≤ shape.implementation.rows.count }
    requires k_value { (row_at (process_in lines.fields.now lines.starts.now shape.implementation).rows k).action ≡ 0 }
    ensures { result ≡ internal_watched (design_at lines.entry.fields.now lines.entry.starts.now shape) k changed }
{
    let mark = mark_reads(lines, shape, k);
    let same = stays(mapping, shape.specification.parameters.count, changed);
    let line = lines.line(shape.measure as usize);
    let measure = reads::value_reads(lines.fields, line as usize + 1, limits::MAX_DEPTH);
    mark | (same | measure.reads)
}

// Criteria 6, 8 and 9 of the visible row k, with this action and data that read the given set.
fn visible(
    lines: Lent,
    shape: Shape,
    mapping: &limits::Values,
    k: u16,
    action: u16,
    carries: u16,
    changed: u16,
) -> u16
    requires fits { Fits shape }
    requires mapping_value { mapping.now ≡ padded (map_reads (design_at lines.fields.now lines.starts.now shape)) }
    requires carries_value { carries ≡ reads_v (row_at (process_in lines.fields.now lines.starts.now shape.implementation).rows k).carries }
    ensures { result ≡ visible_watched (design_at lines.entry.fields.now lines.entry.starts.now shape) (row_at (process_in lines.entry.fields.now lines.entry.starts.now shape.implementation).rows k) (partner (process_in lines.entry.fields.now lines.entry.starts.now shape.specification) action) changed }
{
    let n = shape.specification.parameters.count;
    let reply = steps::row_with(lines, shape.specification, action);
    let q = row(lines, shape.specification, reply);
    let answer = through(mapping, n, q.condition | q.carries);
    let next = follows(lines.fields, q.next, q.count, mapping, n, changed);
    carries | (answer | next)
}

// What decides whether row k keeps all its criteria.
pub fn watched(lines: Lent, shape: Shape, mapping: &limits::Values, k: u16) -> u16
    requires fits { Fits shape }
    requires mapping_value { mapping.now ≡ padded (map_reads (design_at lines.fields.now lines.starts.now shape)) }
    requires k_nonzero { 0 < k }
    requires k_le_count { k ≤ shape.implementation.rows.count }
    ensures { result ≡ watched (design_at lines.entry.fields.now lines.entry.starts.now shape) k }
{
    let x = row(lines, shape.implementation, k);
    let step = changing(lines.fields, x.next, x.count);
    let kept = invariant_after(lines, shape, step.changes);
    if x.action == 0 {
        let rest = internal(lines, shape, mapping, k, step.changes);
        return x.condition | (step.by | (kept | rest));
    }
    let rest = visible(lines, shape, mapping, k, x.action, x.carries, step.changes);
    x.condition | (step.by | (kept | rest))
}

// ---- the rows of the specification

// What decides whether row k, at the mapped state, and its partner are enabled: criterion 7.
pub fn reply_watched(lines: Lent, shape: Shape, mapping: &limits::Values, k: u16) -> u16
    requires fits { Fits shape }
    requires mapping_value { mapping.now ≡ padded (map_reads (design_at lines.fields.now lines.starts.now shape)) }
    ensures { result ≡ reply_watched (design_at lines.entry.fields.now lines.entry.starts.now shape) k }
{
    let q = row(lines, shape.specification, k);
    let asked = through(mapping, shape.specification.parameters.count, q.condition);
    let reply = steps::row_with(lines, shape.implementation, q.action);
    let x = row(lines, shape.implementation, reply);
    asked | x.condition
}
