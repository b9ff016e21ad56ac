// Which states after one are ruled out by the same part of the invariant. A part that fails and reads no parameter after the j-th fails until
// one of the first j changes: in all states whose numbers have the same quotient by the product of the sizes of the others, the first
// parameter being the most significant. A walk need not look at these.
#![tactic(auto)]

ghost use Rattle.std.specs.Prelude.{◌≡◌, false, ◌+◌, ◌*◌, ◌/◌, ◌≤◌, ◌<◌, drop};
ghost use Rattle.foundation.specs.Radix.{product};
ghost use Rattle.criteria.specs.Design.{sizes, states};
ghost use Rattle.design.specs.Loaded.{process_in, design_at};
ghost use Rattle.layout.specs.Sizes.{Fits};
ghost use Rattle.steps.specs.Arrays.{state_in, invariant_in};
ghost use Rattle.blocks.specs.Blocks.{RuledOut, Tries, NoneFrom};

use design::{Process, Shape};
use layout::Lent;

// The mark of a conjunction.
const AND: u16 = 15;

// The number of the first state after this one that the part of the invariant which fails here does not rule out.
pub fn past(lines: Lent, shape: Shape, number: u16, v: &limits::Values) -> usize
    requires fits { Fits shape }
    requires shape_bound { states (design_at lines.fields.now lines.starts.now shape) ≤ 65536 }
    requires number_bound { number < states (design_at lines.fields.now lines.starts.now shape) }
    requires v_value { v.now ≡ state_in lines.fields.now lines.starts.now shape.implementation number }
    requires v_value_2 { invariant_in lines.fields.now lines.starts.now shape v.now ≡ false }
    ensures lower_bound { number < result }
    ensures upper_bound { result ≤ states (design_at lines.entry.fields.now lines.entry.starts.now shape) }
    ensures ruled_out { RuledOut lines.entry.fields.now lines.entry.starts.now shape number result }
{
    let line = lines.line(shape.invariant as usize);
    let tried = first_failing(lines.fields, line as usize + 1, limits::MAX_DEPTH, v);
    let n = up_to_last(
        tried.unwrap_err(),
        shape.implementation.parameters.count as u16,
    );
    next_block(number, width(lines, shape.implementation, n))
}

// ---- the part that fails

// Tries the formula at a place, part by part of a conjunction, up to the first that fails: where the next term stands if it holds, and else
// what that part reads.
fn first_failing(
    desk: &limits::Fields,
    at: usize,
    depth: usize,
    v: &limits::Values,
) -> Result<usize, u16>
    ensures { Tries desk.now v.now at depth result }
{
    let fields: &[u16] = desk;
    if depth == 0 {
        return as_one(desk, at, depth, v);
    }
    if fields.len() <= at {
        return as_one(desk, at, depth, v);
    }
    if fields[at] != AND {
        return as_one(desk, at, depth, v);
    }
    let next = first_failing(desk, at + 1, depth - 1, v)?;
    first_failing(desk, next, depth - 1, v)
}

// Tries it as one part.
fn as_one(desk: &limits::Fields, at: usize, depth: usize, v: &limits::Values) -> Result<usize, u16>
    ensures { Tries desk.now v.now at depth result }
{
    let x = eval::formula(desk, at, v, 0, depth);
    if x.holds {
        return Ok(x.next);
    }
    let y = reads::formula_reads(desk, at, depth);
    Err(y.reads)
}

// ---- its block

// How many of n parameters there are up to the last that is in the set.
fn up_to_last(set: u16, n: u16) -> u16
    ensures upper_bound { result ≤ n }
    ensures none_from { NoneFrom set result n }
{
    let mut rest = set;
    for i in 0..n {
        if rest == 0 {
            return i;
        }
        rest = rest - (rest & reads::only(i));
    }
    n
}

// The product of the sizes of all parameters but the first n.
fn width(lines: Lent, process: Process, n: u16) -> usize
    requires n_le_count { n ≤ process.parameters.count }
    requires nonzero { 0 < product (sizes (process_in lines.fields.now lines.starts.now process)) }
    requires process_bound { product (sizes (process_in lines.fields.now lines.starts.now process)) ≤ 65536 }
    ensures { result ≡ product (drop n (sizes (process_in lines.entry.fields.now lines.entry.starts.now process))) }
{
    let mut w = 1;
    for i in (n..process.parameters.count as u16).rev() {
        let z = lines.size(process.parameters.first as usize + i as usize);
        w = z as usize * w;
    }
    w
}

// The first number of the next block, where blocks of w numbers follow each other from 0 on.
fn next_block(number: u16, w: usize) -> usize
    requires w_nonzero { 0 < w }
    requires w_bound { w ≤ 65536 }
    ensures { result ≡ (number / w + 1) * w }
{
    let k = number as usize;
    let last = k - k % w + (w - 1);
    last + 1
}
