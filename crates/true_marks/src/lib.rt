// A line of marks whose formulas are all `10`, in a desk's arrays: stored there, and looked for.
#![tactic(auto)]

ghost use Rattle.std.specs.Prelude.{◌≡◌, ◌∷◌, ◌+◌, ◌≤◌, replicate};
ghost use Rattle.std.proofs.lemmas.List.Edits.{sets};
ghost use Rattle.limits.specs.Limits.{max_fields};
ghost use Rattle.true_marks.specs.Tens.{tens_from, tens_in};

use design::Shape;
use layout::Lent;

// The kind of the line of marks, and the mark of a formula that is true.
const MARKS: u16 = 8;

const TRUE: u16 = 10;

// A line of marks from a place on: its kind, and n formulas that are true.
pub fn put_line(fields: &mut limits::Fields, at: usize, n: u16)
    requires { at + 1 + n ≤ max_fields }
    ensures { fields.new ≡ sets fields.old at (8 ∷ replicate n 10) }
{
    fields[at] = MARKS;
    put_true(fields, at + 1, n);
}

// n formulas that are true, from a place on.
fn put_true(fields: &mut limits::Fields, at: usize, n: u16)
    requires { at + n ≤ max_fields }
    ensures { fields.new ≡ sets fields.old at (replicate n 10) }
{
    fields[at..at + n as usize].fill(TRUE);
}

// Whether each formula of the line of marks is `10`, by its fields; true where there is no such line.
pub fn all(lines: Lent, shape: Shape) -> bool
    ensures { result ≡ tens_in lines.entry.fields.now lines.entry.starts.now shape }
{
    if shape.marks.count == 0 {
        return true;
    }
    let line = shape.marks.first as usize;
    let from = lines.line(line);
    let to = lines.line(line + 1);
    all_true(lines.fields, from as usize + 1, to as usize)
}

// Whether each field from one place to another is `10`.
fn all_true(fields: &limits::Fields, from: usize, to: usize) -> bool
    ensures { result ≡ tens_from fields.now from to }
{
    (from..to).all(|at| terms::field(fields, at) == TRUE)
}
