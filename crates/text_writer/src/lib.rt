// The lines that a desk's arrays hold, written as a text into a lent buffer. Which lines these are is `held_lines` in design/specs/Loaded, the
// text that has them `text_of` in reader/specs/Text. Its length is found before anything is written, so that a text that does not fit leaves
// every byte as it was. Any arrays are written, and any number of lines.
#![tactic(auto)]

ghost use Rattle.std.specs.Prelude.{◌≡◌, ◌+◌, ◌≤◌, length};
ghost use Rattle.std.proofs.lemmas.List.Edits.{sets};
ghost use Rattle.limits.specs.Limits.{max_fields};
ghost use Rattle.reader.specs.Text.{text_of};
ghost use Rattle.writer.specs.Put.{put, put_length};
ghost use Rattle.design.specs.Loaded.{held_lines};
ghost use Rattle.text_writer.specs.Length.{line_text, between, line_bytes, bytes_in};

use layout::Lent;

const LINE_END: u8 = 10;

// The text of the first n lines; its length, which is 0 for no lines, or 0 where the buffer is too short for it.
pub fn put_text(buffer: &mut [u8], lines: Lent, n: u16) -> usize
    ensures value { result ≡ put_length buffer.old 0 (text_of (held_lines lines.entry.fields.now lines.entry.starts.now n)) }
    ensures buffer_after { buffer.new ≡ put buffer.old 0 (text_of (held_lines lines.entry.fields.now lines.entry.starts.now n)) }
{
    let fields = lines.fields;
    let _all: &[u16] = fields; // for the proof: as a slice it has its length
    let bytes = text_bytes(lines, n);
    if buffer.len() < bytes {
        return 0;
    }
    put_lines(buffer, lines, n);
    bytes
}

// How many bytes that text has.
fn text_bytes(lines: Lent, n: u16) -> usize
    ensures { result ≡ bytes_in lines.entry.starts.now n }
{
    let mut bytes = 0;
    for i in 0..n {
        let line = i as usize;
        bytes += line_bytes(lines.line(line), lines.line(line + 1));
    }
    bytes
}

// How many bytes a line from one place to another has: six for each field, and byte 10.
fn line_bytes(from: u16, to: u16) -> usize
    ensures { result ≡ line_bytes from to }
{
    columns::COLUMNS * fields_between(from, to) as usize + 1
}

// How many fields stand from one place to another.
fn fields_between(from: u16, to: u16) -> u16
    ensures { result ≡ between from to }
{
    to.min(limits::MAX_FIELDS as u16).saturating_sub(from)
}

// The lines one after the other, where there is room for them.
fn put_lines(buffer: &mut [u8], lines: Lent, n: u16)
    requires { bytes_in lines.starts.now n ≤ length buffer.old }
    ensures { buffer.new ≡ sets buffer.old 0 (text_of (held_lines lines.entry.fields.now lines.entry.starts.now n)) }
{
    let fields = lines.fields;
    let mut at = 0;
    for i in 0..n {
        let line = i as usize;
        let from = lines.line(line);
        let to = lines.line(line + 1);
        put_line(buffer, at, fields, from, to);
        at += line_bytes(from, to);
    }
}

// The fields from one place to another and byte 10, from `at` on, where there is room for them.
fn put_line(buffer: &mut [u8], at: usize, fields: &[u16], from: u16, to: u16)
    requires fields_len { length fields.now ≡ max_fields }
    requires to_in_bounds { at + line_bytes from to ≤ length buffer.old }
    ensures { buffer.new ≡ sets buffer.old at (line_text fields.now from to) }
{
    let count = fields_between(from, to) as usize;
    for k in 0..count {
        let n = terms::field(fields, from as usize + k);
        writer::put_field(buffer, at + columns::COLUMNS * k, n);
    }
    buffer[at + columns::COLUMNS * count] = LINE_END;
}
