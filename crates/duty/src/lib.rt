// Whether the specification in a design text is that of another text, the duty, for C: the lines of kinds 2 and 4, field by field. Nothing
// else of the two is compared. What is told is in specs/Duty, of any two texts; what is compared on the arrays that hold them, in specs/Arrays,
// of any arrays; that the one is the other, in proofs/Loaded.
#![tactic(auto)]

ghost use Rattle.std.specs.Prelude.{◌≡◌, ◌+◌};
ghost use Rattle.layout.specs.Sizes.{shape_of};
ghost use Rattle.duty.specs.Arrays.{length_at, same_from, same_line, same_lines_from, same_section, same_process};
ghost use Rattle.duty.specs.Duty.{duty_told};

use design::{Counts, Section};
use layout::Lent;

// What C is told.
const SAME: u32 = 0;

const DIFFERS: u32 = 1;

const NO_DESIGN: u32 = 2;

const NO_DUTY: u32 = 3;

// For C: whether the text's specification is the duty's, or which of the two is no design text.
pub fn same_duty(text: &[u8], duty: &[u8]) -> u32
    ensures { result ≡ duty_told text.now duty.now }
{
    let Ok(own) = loader::load(text) else {
        return NO_DESIGN;
    };
    let Ok(due) = loader::load(duty) else {
        return NO_DUTY;
    };
    let lines = Lent {
        fields: &own.lines.fields,
        starts: &own.lines.starts,
    };
    let asked = Lent {
        fields: &due.lines.fields,
        starts: &due.lines.starts,
    };
    if same_specification(lines, own.counts, asked, due.counts) {
        SAME
    } else {
        DIFFERS
    }
}

// Whether the lines of the two specifications are the same, where the lines are so many.
fn same_specification(lines: Lent, counts: Counts, due: Lent, asked: Counts) -> bool
    ensures { result ≡ same_process lines.entry.fields.now lines.entry.starts.now (shape_of counts).specification due.entry.fields.now due.entry.starts.now (shape_of asked).specification }
{
    let here = layout::shape_of(counts);
    let there = layout::shape_of(asked);
    let parameters = same_section(
        lines,
        here.specification.parameters,
        due,
        there.specification.parameters,
    );
    let rows = same_section(
        lines,
        here.specification.rows,
        due,
        there.specification.rows,
    );
    parameters & rows
}

// Whether two sections have as many lines, and each the same as the other's.
fn same_section(lines: Lent, here: Section, due: Lent, there: Section) -> bool
    ensures { result ≡ same_section lines.entry.fields.now lines.entry.starts.now here due.entry.fields.now due.entry.starts.now there }
{
    if here.count != there.count {
        return false;
    }
    same_lines(lines, here.first, due, there.first, here.count)
}

// Whether so many lines from line i on are those of the other arrays from line j on.
fn same_lines(lines: Lent, i: u8, due: Lent, j: u8, count: u8) -> bool
    ensures { result ≡ same_lines_from lines.entry.fields.now lines.entry.starts.now i due.entry.fields.now due.entry.starts.now j count }
{
    for k in 0..count {
        if !same_nth(lines, i, due, j, k) {
            return false;
        }
    }
    true
}

// Whether the k-th line after line i is the k-th after the other arrays' line j.
fn same_nth(lines: Lent, i: u8, due: Lent, j: u8, k: u8) -> bool
    ensures { result ≡ same_line lines.entry.fields.now lines.entry.starts.now (i + k) due.entry.fields.now due.entry.starts.now (j + k) }
{
    same_line(lines, i as u16 + k as u16, due, j as u16 + k as u16)
}

// Whether line i has as many fields as the other arrays' line j, and the same.
fn same_line(lines: Lent, i: u16, due: Lent, j: u16) -> bool
    ensures { result ≡ same_line lines.entry.fields.now lines.entry.starts.now i due.entry.fields.now due.entry.starts.now j }
{
    let length = line_length(lines, i);
    if length != line_length(due, j) {
        return false;
    }
    same_fields(
        lines.fields,
        lines.line(i as usize),
        due.fields,
        due.line(j as usize),
        length,
    )
}

// How many fields line i has.
fn line_length(lines: Lent, i: u16) -> u16
    ensures { result ≡ length_at lines.entry.starts.now i }
{
    let start = lines.line(i as usize);
    let end = lines.line(i as usize + 1);
    if end < start { 0 } else { end - start }
}

// Whether n fields from a place on are those from a place of the other array on.
fn same_fields(fields: &limits::Fields, from: u16, due: &limits::Fields, at: u16, n: u16) -> bool
    ensures { result ≡ same_from fields.now from due.now at n }
{
    for k in 0..n {
        if layout::field_of(fields, from, k) != layout::field_of(due, at, k) {
            return false;
        }
    }
    true
}
