// Fault 7, on a desk's arrays: the fields of all lines one after the other, and where each line starts among them.
//
// A row is named by the number of its line. Each function answers any content of the arrays. What is tested is in
// specs/ActionsFit; that it is the absence of fault 7, in proofs/ActionsFit.
#![tactic(auto)]

ghost use Rattle.std.specs.Prelude.{◌≡◌, ◌<◌};
ghost use Rattle.action_check.specs.ActionsFit.{actions_fit_in};
ghost use Rattle.action_check.specs.Lines as tests;

use design::Counts;
use layout::Lent;

// "Action 0 is the internal step."
const INTERNAL: u16 = 0;

// The fields of a row that stand before its terms: kind, action, span.
const ACTION: u16 = 1;

const SPAN: u16 = 2;

const TERMS: usize = 3;

// Whether the design that the arrays hold is free of fault 7, where the counts of lines are those that a text may have.
pub fn actions_fit(lines: Lent, counts: Counts) -> bool
    ensures { result ≡ actions_fit_in lines.entry.fields.now lines.entry.starts.now counts }
{
    if !layout::counts_fit(counts) {
        return false;
    }
    let shape = layout::shape_of(counts);
    rows_fit(
        lines,
        shape.implementation.rows.first as usize,
        shape.specification.rows.first as usize,
        shape.invariant as usize,
    )
}

// Whether the rows are free of fault 7: those of the implementation from one line on, those of the specification from the middle to
// the end.
fn rows_fit(lines: Lent, from: usize, middle: usize, end: usize) -> bool
    ensures { result ≡ tests.rows_are_allowed lines.entry.fields.now lines.entry.starts.now from middle end }
{
    if !all_alone(lines, from, middle) {
        return false;
    }
    if !all_alone(lines, middle, end) {
        return false;
    }
    if !all_differ(lines, INTERNAL, middle, end) {
        return false;
    }
    if !all_bare(lines, from, middle) {
        return false;
    }
    all_agree(lines, from, middle, end)
}

// Whether each visible action of the rows from one line on, up to the end, stands in one of them only.
fn all_alone(lines: Lent, from: usize, end: usize) -> bool
    ensures { result ≡ tests.between (tests.alone lines.entry.fields.now lines.entry.starts.now end) from end }
{
    (from..end).all(|i| is_alone(lines, i, end))
}

// Whether a row is internal, or no later row has its action.
fn is_alone(lines: Lent, i: usize, end: usize) -> bool
    requires { i < end }
    ensures { result ≡ tests.alone lines.entry.fields.now lines.entry.starts.now end i }
{
    let action = lines.field(i, ACTION);
    if action != INTERNAL {
        return all_differ(lines, action, i + 1, end);
    }
    true
}

// Whether none of the rows from one line on, up to the end, has this action.
fn all_differ(lines: Lent, action: u16, from: usize, end: usize) -> bool
    ensures { result ≡ tests.between (tests.differs lines.entry.fields.now lines.entry.starts.now action) from end }
{
    (from..end).all(|i| differs(lines, action, i))
}

// Whether a row has another action than this.
fn differs(lines: Lent, action: u16, i: usize) -> bool
    ensures { result ≡ tests.differs lines.entry.fields.now lines.entry.starts.now action i }
{
    action != lines.field(i, ACTION)
}

// Whether each internal row has data `0 0`.
fn all_bare(lines: Lent, from: usize, end: usize) -> bool
    ensures { result ≡ tests.between (tests.bare lines.entry.fields.now lines.entry.starts.now) from end }
{
    (from..end).all(|i| is_bare(lines, i))
}

// Whether a row is visible, or its data is `0 0`.
fn is_bare(lines: Lent, i: usize) -> bool
    ensures { result ≡ tests.bare lines.entry.fields.now lines.entry.starts.now i }
{
    if lines.field(i, ACTION) != INTERNAL {
        return true;
    }
    has_zero_data(lines, i)
}

// Whether a row's data, which stands after its condition, is `0 0`.
fn has_zero_data(lines: Lent, i: usize) -> bool
    ensures { result ≡ tests.bare_at lines.entry.fields.now lines.entry.starts.now i }
{
    let anywhere = [0u16; limits::MAX_PARAMETERS];
    let condition = lines.line(i) as usize + TERMS;
    let fields = lines.fields;
    let after = eval::formula(fields, condition, &anywhere, 0, limits::MAX_DEPTH);
    is_zero(fields, after.next)
}

// Whether the value at a place of the fields is `0 0`.
fn is_zero(fields: &[u16], at: usize) -> bool
    ensures { result ≡ tests.zero_at fields.now at }
{
    if fields.len() <= at {
        return false;
    }
    if fields[at] != 0 {
        return false;
    }
    if fields.len() <= at + 1 {
        return false;
    }
    fields[at + 1] == 0
}

// Whether each row of the one process has the span of each row of its action in the other.
fn all_agree(lines: Lent, from: usize, middle: usize, end: usize) -> bool
    ensures { result ≡ tests.between (tests.agrees lines.entry.fields.now lines.entry.starts.now middle end) from middle }
{
    (from..middle).all(|i| agrees(lines, i, middle, end))
}

// Whether a row has the span of each row of its action from one line on, up to the end.
fn agrees(lines: Lent, i: usize, from: usize, end: usize) -> bool
    ensures { result ≡ tests.agrees lines.entry.fields.now lines.entry.starts.now from end i }
{
    (from..end).all(|j| agree(lines, i, j))
}

// Whether two rows have different actions, or one span.
fn agree(lines: Lent, i: usize, j: usize) -> bool
    ensures { result ≡ tests.agree lines.entry.fields.now lines.entry.starts.now i j }
{
    if lines.field(i, ACTION) != lines.field(j, ACTION) {
        return true;
    }
    lines.field(i, SPAN) == lines.field(j, SPAN)
}
