// Reading from a reader until its end is told, and writing to a writer, over the library's calls. An error is told apart from the end
// of the input. A call that a signal interrupts is made again. Which bytes the operating system's streams give and take no contract can
// say; of a reader and a writer whose bytes are known they are said.
#![tactic(auto)]

ghost use Rattle.std.specs.Prelude.{◌≡◌, ◌≤◌, length, take, IfOk, OnOk};
ghost use Rattle.std.specs.Io.KnownBytes.{Appends, WriteAppends};
ghost use Rattle.streams.specs.Reading.{Within, Gave, Given};

mod read_ahead;

pub use read_ahead::{BLOCK, Parts, ReadAhead};
use std::io;
use std::io::{Cursor, ErrorKind, Write};

// How often a call that is interrupted is made. One loop over a closure, for reads and writes, is no plainer: `Gave` and `WriteAppends` speak
// of the reader or the writer before the first call, which the closure would hold.
const TRIES: u32 = 1000000;

// How the reading of an input ended: its end was told after so many bytes, or the room was full before that.
#[derive(Clone, Copy)]
pub enum Input {
    Ended(usize),
    Full,
}

// Reads until the end is told or the room is full; what was read stands at the start of the room.
pub fn read_input<R: io::Read>(reader: &mut R, room: &mut [u8]) -> io::Result<Input>
    ensures within { IfOk result (Within (length room.old)) }
    ensures bytes { Given (R.remaining reader.old) (R.remaining reader.new) room.new result }
{
    let mut n = 0;
    while n < room.len() {
        match read_some(reader, &mut room[n..])? {
            0 => return Ok(Input::Ended(n)),
            k => n += k,
        }
    }
    Ok(Input::Full)
}

// Reads once, and answers how many bytes; 0 is the end. Into no room nothing can be read: that is an error too.
pub fn read_some<R: io::Read>(reader: &mut R, room: &mut [u8]) -> io::Result<usize>
    ensures upper_bound { IfOk result (λ k. k ≤ length room.old) }
    ensures bytes { Gave (R.remaining reader.old) (R.remaining reader.new) room.new result }
{
    if room.is_empty() {
        return Err(io::Error::from(ErrorKind::InvalidInput));
    }
    for _ in 0..TRIES {
        match reader.read(room) {
            Err(error) if error.kind() == ErrorKind::Interrupted => {}
            read => return read,
        }
    }
    Err(io::Error::from(ErrorKind::Interrupted))
}

// Writes all of the bytes; an error where a write takes nothing or fails. The library's own has other words for the first, which are seen.
pub fn write_all<W: Write>(writer: &mut W, bytes: &[u8]) -> io::Result<()>
    ensures { OnOk result (Appends (W.contents writer.old) (W.contents writer.new) bytes.now) }
{
    let mut n = 0;
    while n < bytes.len() {
        let k = write_some(writer, &bytes[n..])?;
        if k == 0 {
            return Err(io::Error::from(ErrorKind::WriteZero));
        }
        n += k;
    }
    Ok(())
}

// Writes once, and answers how many bytes are taken.
fn write_some<W: Write>(writer: &mut W, bytes: &[u8]) -> io::Result<usize>
    ensures upper_bound { IfOk result (λ k. k ≤ length bytes.now) }
    ensures taken { WriteAppends (W.contents writer.old) (W.contents writer.new) result bytes.now }
{
    for _ in 0..TRIES {
        match writer.write(bytes) {
            Err(error) if error.kind() == ErrorKind::Interrupted => {}
            written => return written,
        }
    }
    Err(io::Error::from(ErrorKind::Interrupted))
}

// Room for the words of an error.
const WORDS: usize = 256;

// Writes a line: what failed, as the caller names it, a colon and the system's words for the error.
pub fn fail<W: Write>(writer: &mut W, what: &[u8], error: io::Error) -> io::Result<()> {
    let mut said = Cursor::new([0u8; WORDS]);
    write!(said, "{error}")?;
    let end = WORDS.min(said.position() as usize);
    let text = said.into_inner();
    let words = match error.raw_os_error() {
        Some(_) => before_number(&text[..end]),
        None => &text[..end],
    };
    write_all(writer, what)?;
    write_all(writer, b": ")?;
    write_all(writer, words)?;
    write_all(writer, b"\n")
}

// The words before the error's number, which the library puts in brackets after a blank.
fn before_number(text: &[u8]) -> &[u8]
    ensures { result.now ≡ take (length result.now) text.now }
{
    match text.iter().rposition(|b| *b == b'(') {
        Some(i) => &text[..i.saturating_sub(1)],
        None => text,
    }
}
