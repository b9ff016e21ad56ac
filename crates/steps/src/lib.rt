// States and steps, from a desk's arrays: the state that has a number, what a row does at a state, whether the invariant holds there,
// the mapped state and the measure. Every function answers any arrays.
//
// A state, of either process, is an array of eight values of which those past the last parameter are 0. What each function computes
// is in specs/Arrays; that this is what the design in the arrays says is in proofs/States.
#![tactic(auto)]

ghost use Rattle.std.specs.Prelude.{◌≡◌, ◌-◌, ◌%◌, ◌/◌, min, length, drop};
ghost use Rattle.std.proofs.lemmas.List.Edits.{sets};
ghost use Rattle.criteria.specs.Design.{mapped};
ghost use Rattle.design.specs.Line.{row_of};
ghost use Rattle.design.specs.Loaded.{design_at};
ghost use Rattle.steps.specs.Arrays.{padded, values_at, step_of, no_step_there, line_of, row_step, row_span, row_with, state_values, state_in, number_in, initial_in, below_in, same_in, invariant_in, inside_in, mapped_in, measure_in};

use design::{Process, Shape};
use layout::Lent;

// What a row does at a state for a sum value: its action, whether it is enabled, the data number, and the state that it leads to.
#[derive(Clone, Copy)]
pub struct Step {
    pub action: u16,
    pub enabled: bool,
    pub carries: u16,
    pub next: limits::Values,
}

// No state has this number.
pub const NOWHERE: u32 = limits::MAX_STATES as u32;

// ---- values

// No more than there is room for.
pub fn few(n: u8) -> usize
    ensures { result ≡ min n 8 }
{
    (n as usize).min(limits::MAX_PARAMETERS)
}

// Stores the values of n terms that stand one after the other from a place on. Where steps are many, they go straight to where they are used:
// to give eight values back costs more than to compute two.
pub fn put_values(
    fields: &limits::Fields,
    at: usize,
    n: u8,
    v: &limits::Values,
    sum: u16,
    out: &mut limits::Values,
)
    requires { length out.old ≡ 8 }
    ensures { out.new ≡ sets out.old 0 (values_at fields.now at n v.now sum) }
{
    let m = few(n);
    let mut place = at;
    for i in 0..m {
        let x = eval::value(fields, place, v, sum, limits::MAX_DEPTH);
        out[i] = x.value;
        place = x.next;
    }
}

// These values, and zeros behind them.
pub fn values(
    fields: &limits::Fields,
    at: usize,
    n: u8,
    v: &limits::Values,
    sum: u16,
) -> limits::Values
    ensures { result ≡ padded (values_at fields.now at n v.now sum) }
{
    let mut out = [0u16; limits::MAX_PARAMETERS];
    put_values(fields, at, n, v, sum, &mut out);
    out
}

// Stores the state that has a number: each value is the remainder by its size of what is left, from the last parameter on. By a size of 0
// the remainder is all that is left, and nothing is.
pub fn put_state(lines: Lent, process: Process, number: u16, out: &mut limits::Values)
    ensures { out.new ≡ sets out.old 0 (state_values lines.entry.fields.now lines.entry.starts.now process number) }
{
    let mut left = number;
    for i in (0..few(process.parameters.count)).rev() {
        let z = lines.size(process.parameters.first as usize + i);
        out[i] = left.checked_rem(z).unwrap_or(left);
        left = left.checked_div(z).unwrap_or(0);
    }
}

// That state.
pub fn state(lines: Lent, process: Process, number: u16) -> limits::Values
    ensures { result ≡ state_in lines.entry.fields.now lines.entry.starts.now process number }
{
    let mut out = [0u16; limits::MAX_PARAMETERS];
    put_state(lines, process, number, &mut out);
    out
}

// The number of a state, and `NOWHERE` for all that are larger than the number of any.
pub fn number(lines: Lent, process: Process, v: &limits::Values) -> usize
    ensures { result ≡ number_in lines.entry.fields.now lines.entry.starts.now process v.now }
{
    let mut k = 0;
    for i in 0..process.parameters.count as usize {
        let z = lines.size(process.parameters.first as usize + i);
        k = layout::onward(k, z, terms::field(v, i), NOWHERE);
    }
    k as usize
}

// The initial state.
pub fn initial_state(lines: Lent, process: Process) -> limits::Values
    ensures { result ≡ initial_in lines.entry.fields.now lines.entry.starts.now process }
{
    let m = few(process.parameters.count);
    let mut out = [0u16; limits::MAX_PARAMETERS];
    for i in 0..m {
        out[i] = lines.initial(process.parameters.first as usize + i);
    }
    out
}

// Whether the values are below the sizes.
pub fn below(lines: Lent, process: Process, v: &limits::Values) -> bool
    ensures { result ≡ below_in lines.entry.fields.now lines.entry.starts.now process v.now }
{
    (0..process.parameters.count as usize).all(|i| {
        let z = lines.size(process.parameters.first as usize + i);
        terms::field(v, i) < z
    })
}

// Whether the first n values are the same.
pub fn same(n: u8, v: &limits::Values, w: &limits::Values) -> bool
    ensures { result ≡ same_in n v.now w.now }
{
    (0..n as usize).all(|i| terms::field(v, i) == terms::field(w, i))
}

// ---- rows

// What the row in the line that starts at a place does, in a process of n parameters.
fn step_by(fields: &limits::Fields, line: u16, n: u8, v: &limits::Values, sum: u16) -> Step
    ensures { result ≡ step_of (row_of n (drop line fields.now)) v.now sum }
{
    let condition = eval::formula(fields, line as usize + 3, v, sum, limits::MAX_DEPTH);
    let data = eval::value(fields, condition.next, v, sum, limits::MAX_DEPTH);
    let next = values(fields, data.next, n, v, sum);
    Step {
        action: layout::field_of(fields, line, 1),
        enabled: condition.holds,
        carries: data.value,
        next,
    }
}

// What no row does.
fn no_step() -> Step
    ensures { result ≡ no_step_there }
{
    Step {
        action: 0,
        enabled: false,
        carries: 0,
        next: [0u16; limits::MAX_PARAMETERS],
    }
}

// Where the line of row k of a process starts, rows being counted from 1.
pub fn line_of(starts: &limits::Starts, process: Process, k: u16) -> u16
    ensures { result ≡ line_of starts.now process k }
{
    let before = (process.rows.first as usize + k as usize).saturating_sub(1);
    terms::field(starts, before)
}

// What row k of a process does.
pub fn row_step(lines: Lent, process: Process, k: u16, v: &limits::Values, sum: u16) -> Step
    ensures { result ≡ row_step lines.entry.fields.now lines.entry.starts.now process k v.now sum }
{
    if k == 0 {
        return no_step();
    }
    if (process.rows.count as u16) < k {
        return no_step();
    }
    let line = line_of(lines.starts, process, k);
    step_by(lines.fields, line, process.parameters.count, v, sum)
}

// Its span, and 0 where there is no row k.
pub fn row_span(lines: Lent, process: Process, k: u16) -> u16
    ensures { result ≡ row_span lines.entry.fields.now lines.entry.starts.now process k }
{
    if k == 0 {
        return 0;
    }
    if (process.rows.count as u16) < k {
        return 0;
    }
    layout::field_of(lines.fields, line_of(lines.starts, process, k), 2)
}

// The number of the first row of an action, and 0 if there is none.
pub fn row_with(lines: Lent, process: Process, action: u16) -> u16
    ensures { result ≡ row_with lines.entry.fields.now lines.entry.starts.now process action }
{
    (0..process.rows.count as u16)
        .find(|i| lines.field(process.rows.first as usize + *i as usize, 1) == action)
        .map_or(0, |i| i + 1)
}

// ---- the design

// Whether the invariant holds.
pub fn invariant(lines: Lent, shape: Shape, v: &limits::Values) -> bool
    ensures { result ≡ invariant_in lines.entry.fields.now lines.entry.starts.now shape v.now }
{
    let line = lines.line(shape.invariant as usize);
    conjuncts::holds(lines.fields, line as usize + 1, v, 0)
}

// Whether the values are those of a state of the implementation in which the invariant holds.
pub fn inside(lines: Lent, shape: Shape, v: &limits::Values) -> bool
    ensures { result ≡ inside_in lines.entry.fields.now lines.entry.starts.now shape v.now }
{
    if below(lines, shape.implementation, v) {
        invariant(lines, shape, v)
    } else {
        false
    }
}

// Stores the mapped values.
pub fn put_mapped(lines: Lent, shape: Shape, v: &limits::Values, out: &mut limits::Values)
    requires { length out.old ≡ 8 }
    ensures { out.new ≡ sets out.old 0 (mapped (design_at lines.entry.fields.now lines.entry.starts.now shape) v.now) }
{
    let line = lines.line(shape.mapping as usize);
    put_values(
        lines.fields,
        line as usize + 1,
        shape.specification.parameters.count,
        v,
        0,
        out,
    );
}

// The mapped state.
pub fn mapped(lines: Lent, shape: Shape, v: &limits::Values) -> limits::Values
    ensures { result ≡ mapped_in lines.entry.fields.now lines.entry.starts.now shape v.now }
{
    let mut out = [0u16; limits::MAX_PARAMETERS];
    put_mapped(lines, shape, v, &mut out);
    out
}

// The measure.
pub fn measure(lines: Lent, shape: Shape, v: &limits::Values) -> u16
    ensures { result ≡ measure_in lines.entry.fields.now lines.entry.starts.now shape v.now }
{
    let line = lines.line(shape.measure as usize);
    let m = eval::value(lines.fields, line as usize + 1, v, 0, limits::MAX_DEPTH);
    m.value
}
