// From a text to a desk's arrays, or the lowest fault of the text. Without a heap, on the lent text: the columns, the fields into
// the arrays, then kinds and counts, bounds, terms and actions, each ending the search. What a fault is, is in design/specs/Faults;
// that the first one found so is the lowest anywhere in the text is in proofs/Lowest.
#![tactic(auto)]

ghost use Rattle.std.specs.Prelude.{◌≡◌, ◌+◌, ◌≤◌, length};
ghost use Rattle.std.proofs.lemmas.List.Edits.{sets};
ghost use Rattle.reader.specs.Line.{fields_of};
ghost use Rattle.reader.specs.Text.{fields_by_line, columns_fault};
ghost use Rattle.design.specs.Lines.{kind_of};
ghost use Rattle.design.specs.Tests.{each_line_is};
ghost use Rattle.loader.specs.Filled.{Filled};
ghost use Rattle.layout.specs.Sizes.{shape_of};
ghost use Rattle.verdicts.specs.Refusals.{fault_found};
ghost use Rattle.loader.specs.Load.{line_test, internal_with, table_fault, loaded_of, Holds};

use design::Counts;
use layout::{Lent, Lines};
use reader::LineReader;
use verdicts::Fault;

// A text's lines in the arrays, and how many there are of each kind.
#[derive(Clone, Copy)]
pub struct Loaded {
    pub lines: Lines,
    pub counts: Counts,
}

// The arrays that hold a text, or its lowest fault.
pub fn load(text: &[u8]) -> Result<Loaded, Fault>
    ensures { result ≡ loaded_of text.now }
{
    text_check::columns_fault(text)?;
    let mut lines = Lines::none();
    let n = fill(text, &mut lines.fields, &mut lines.starts);
    if limits::MAX_LINES < n {
        return Err(Fault::Layout);
    }
    let counts = table_check::counts_of(&lines.fields, &lines.starts, n);
    table_fault(text, &lines, n, counts)?;
    Ok(Loaded { lines, counts })
}

// The lowest of the faults 4 to 7.
fn table_fault(text: &[u8], lines: &Lines, n: usize, counts: Counts) -> Result<(), Fault>
    requires { Holds text.now lines.now.fields lines.now.starts n counts }
    ensures { fault_found result ≡ table_fault (fields_by_line text.now) }
{
    let lent = Lent {
        fields: &lines.fields,
        starts: &lines.starts,
    };
    if !table_check::layout_fits(&lines.fields, &lines.starts, n) {
        return Err(Fault::Layout);
    }
    if !table_check::numbers_fit(&lines.fields, &lines.starts, n) {
        return Err(Fault::Bounds);
    }
    if limits::MAX_STATES < lent.state_count(counts) {
        return Err(Fault::Bounds);
    }
    let internal = internal_rows(lines, counts);
    if !terms_fit(text, counts.kind1 as u16, counts.kind2 as u16, internal) {
        return Err(Fault::Terms);
    }
    if !action_check::actions_fit(lent, counts) {
        return Err(Fault::Actions);
    }
    Ok(())
}

// How many rows of the implementation are internal, where the lines are so many.
fn internal_rows(lines: &Lines, counts: Counts) -> u16
    ensures { result ≡ internal_with lines.now.fields lines.now.starts (shape_of counts) }
{
    let lent = Lent {
        fields: &lines.fields,
        starts: &lines.starts,
    };
    let shape = layout::shape_of(counts);
    let rows = shape.implementation.rows.count as u16;
    marks::internal_rows(lent, shape.implementation, rows)
}

// Whether each line is the terms of its kind, where n lines are of kind 1 and m of kind 2, and i rows are internal.
fn terms_fit(text: &[u8], n: u16, m: u16, i: u16) -> bool
    requires { columns_fault text.now ≡ 0 }
    ensures { result ≡ each_line_is (line_test n m i) (fields_by_line text.now) }
{
    let mut at = 0;
    while at < text.len() {
        let count = reader::count(&text[at..]);
        let end = at + columns::COLUMNS * count;
        if line_terms_fit(&text[at..end], n, m, i) {
            at = end + 1;
        } else {
            return false;
        }
    }
    true
}

// Whether a line is the terms of its kind.
fn line_terms_fit(line: &[u8], n: u16, m: u16, i: u16) -> bool
    ensures { result ≡ line_test n m i (fields_of line.now) }
{
    line_check::line_fits(line, kind_of(line), n, m, i)
}

// A line's first field; 0 where it has none.
fn kind_of(line: &[u8]) -> u16
    ensures { result ≡ kind_of (fields_of line.now) }
{
    reader::field_at(line, 0).unwrap_or(0)
}

// The fields of a text's lines one after the other, and where each line starts; how many lines there are, or one more than
// `MAX_LINES` where there are more.
fn fill(text: &[u8], fields: &mut limits::Fields, starts: &mut limits::Starts) -> usize
    requires { columns_fault text.now ≡ 0 }
    ensures { Filled (fields_by_line text.now) fields.old starts.old result fields.new starts.new }
{
    let mut at = 0;
    let mut to = 0;
    let mut lines = 0;
    // Where a line starts is what is stored, and lines are of unequal length: a `for` over them would count both, and be no plainer.
    while at < text.len() {
        if limits::MAX_LINES <= lines {
            return limits::MAX_LINES + 1;
        }
        starts[lines] = to as u16;
        let n = copy_fields(&text[at..], fields, to);
        at = at + columns::COLUMNS * n + 1;
        to += n;
        lines += 1;
    }
    starts[lines] = to as u16;
    lines
}

// The fields that a part begins with, into the array from `to` on; how many they are.
fn copy_fields(part: &[u8], fields: &mut limits::Fields, to: usize) -> usize
    requires { to + length (fields_of part.now) ≤ 4096 }
    ensures value { result ≡ length (fields_of part.now) }
    ensures fields_after { fields.new ≡ sets fields.old to (fields_of part.now) }
{
    let mut reader = LineReader::new(part);
    loop {
        let next = reader.next();
        let Some(n) = next.field else {
            return reader.at;
        };
        fields[to + reader.at] = n;
        reader = next.reader;
    }
}
