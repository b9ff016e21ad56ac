// Unmarked texts to marked and back (02, order 2). A text is loaded into a desk's arrays; there a line of marks is added behind the others,
// or left out, and the lines are written as a text into the lent buffer. What each writer answers and writes is in specs/Answer, one
// equation for every text and every buffer; nothing is written before it is known that all of it fits.
#![tactic(auto)]

ghost use Rattle.std.specs.Prelude.{◌≡◌, ◌<◌};
ghost use Rattle.limits.specs.Limits.{max_lines};
ghost use Rattle.reader.specs.Text.{text_of};
ghost use Rattle.writer.specs.Put.{put, put_length};
ghost use Rattle.design.specs.Loaded.{held_lines};
ghost use Rattle.conversion.specs.Result.{there, back};
ghost use Rattle.conversion.specs.Answer.{told, answer_of, buffer_written};
ghost use Rattle.conversion.specs.Lines.{done_with, marked_answer, marked_buffer};

use layout::{Lent, Lines};
use verdicts::Refusal;

// A text without a line of marks into one with it, each formula being `10`; one that has it is copied. The length of the result.
pub fn to_marked(text: &[u8], buffer: &mut [u8]) -> Result<usize, Refusal>
    ensures value { told result ≡ answer_of there text.now buffer.old }
    ensures buffer_after { buffer.new ≡ buffer_written there text.now buffer.old }
{
    let loaded = loader::load(text)?; // also of a text that is only copied
    let shape = layout::shape_of(loaded.counts);
    let last = shape.marks.first as u16;
    let lines = last + 1;
    if shape.marks.count != 0 {
        return write(buffer, &loaded.lines, lines);
    }
    let rows = shape.implementation.rows.count as u16;
    let lent = Lent {
        fields: &loaded.lines.fields,
        starts: &loaded.lines.starts,
    };
    let internal = marks::internal_rows(lent, shape.implementation, rows);
    write_marked(buffer, loaded.lines, last, internal)
}

// A text with a line of marks, each formula being `10`, into one without it; one without it is copied. The length of the
// result.
pub fn to_unmarked(text: &[u8], buffer: &mut [u8]) -> Result<usize, Refusal>
    ensures value { told result ≡ answer_of back text.now buffer.old }
    ensures buffer_after { buffer.new ≡ buffer_written back text.now buffer.old }
{
    let loaded = loader::load(text)?;
    let shape = layout::shape_of(loaded.counts);
    let lines = shape.marks.first as u16;
    let lent = Lent {
        fields: &loaded.lines.fields,
        starts: &loaded.lines.starts,
    };
    if true_marks::all(lent, shape) {
        return write(buffer, &loaded.lines, lines);
    }
    Err(Refusal::NotAllTrue)
}

// For C: writes a text with a line of marks, one that has it as it is. Returns the result's length and tells 0; turned down, it returns 0 and
// tells the number.
pub fn mark_design(text: &[u8], buffer: &mut [u8], number: &mut u32) -> usize
    ensures value { result ≡ (answer_of there text.now buffer.old).length }
    ensures buffer_after { buffer.new ≡ buffer_written there text.now buffer.old }
    ensures number_after { number.new ≡ (answer_of there text.now buffer.old).number }
{
    let marked = to_marked(text, buffer);
    tell(marked, number)
}

// For C: writes a text without its line of marks, each formula of which has to be `10`; returns and tells the same.
pub fn unmark_design(text: &[u8], buffer: &mut [u8], number: &mut u32) -> usize
    ensures value { result ≡ (answer_of back text.now buffer.old).length }
    ensures buffer_after { buffer.new ≡ buffer_written back text.now buffer.old }
    ensures number_after { number.new ≡ (answer_of back text.now buffer.old).number }
{
    let unmarked = to_unmarked(text, buffer);
    tell(unmarked, number)
}

// The result's length, and 0; or 0, and the number by which the call is turned down.
fn tell(written: Result<usize, Refusal>, number: &mut u32) -> usize
    ensures value { result ≡ (told written).length }
    ensures number_after { number.new ≡ (told written).number }
{
    match written {
        Ok(length) => {
            *number = 0;
            length
        }
        Err(refusal) => {
            *number = u32::from(refusal.number());
            0
        }
    }
}

// The text of the first n lines, if it fits.
fn write(buffer: &mut [u8], lines: &Lines, n: u16) -> Result<usize, Refusal>
    ensures value { told result ≡ done_with (put_length buffer.old 0 (text_of (held_lines lines.now.fields lines.now.starts n))) }
    ensures buffer_after { buffer.new ≡ put buffer.old 0 (text_of (held_lines lines.now.fields lines.now.starts n)) }
{
    let lent = Lent {
        fields: &lines.fields,
        starts: &lines.starts,
    };
    let length = text_writer::put_text(buffer, lent, n);
    if length == 0 {
        return Err(Refusal::NoRoom);
    }
    Ok(length)
}

// The text of the lines with one of n marks behind them, as line i, if it fits.
fn write_marked(buffer: &mut [u8], lines: Lines, i: u16, n: u16) -> Result<usize, Refusal>
    requires { i < max_lines }
    ensures value { told result ≡ marked_answer buffer.old lines.fields lines.starts i n }
    ensures buffer_after { buffer.new ≡ marked_buffer buffer.old lines.fields lines.starts i n }
{
    let lent = Lent {
        fields: &lines.fields,
        starts: &lines.starts,
    };
    let at = lent.line(i as usize) as usize;
    let end = at + 1 + n as usize;
    if limits::MAX_FIELDS < end {
        return Err(Refusal::NoRoom);
    }
    let mut more = lines;
    true_marks::put_line(&mut more.fields, at, n);
    more.starts[i as usize + 1] = end as u16;
    write(buffer, &more, i + 1)
}
