// The lines and texts of a list of desk calls, read byte by byte: what is read of a reader whose bytes are known is in specs/Input.
#![tactic(auto)]

ghost use Rattle.std.specs.Prelude.{ℕ, ◌≡◌, List, [], ◌∷◌, length, IfOk, OnOk};
ghost use Rattle.std.specs.Io.KnownBytes.{Consumes};
ghost use Rattle.streams.specs.Ahead.{left_of};
ghost use Rattle.call_input.specs.Input.{IsLine, TextRead};
ghost use Rattle.call_input.specs.declared.TextError.TheVariants.{NotRead};

use std::io;
use streams::ReadAhead;

const LINE_END: u8 = 10;

// The longest text that is not turned down for its length, and one byte: no more is kept of a text.
pub const ROOM: usize = limits::MAX_BYTES + 1;

// A line of input: its length where it is no longer than a call may be; else nothing is kept of it.
#[derive(Clone, Copy)]
pub enum Line {
    Short(usize),
    Long,
    End,
}

// Why a text that is due was not read.
#[derive(Clone, Copy, Debug)]
pub enum TextError {
    Missing,
    NoLineEnd,
    NotRead(io::Error),
}

impl From<io::Error> for TextError {
    ghost from_gives = { λ error e. e ≡ NotRead error };

    fn from(error: io::Error) -> TextError {
        TextError::NotRead(error)
    }
}

// Reads up to a byte 10 and puts what is before it at the start of the bytes. A last line without byte 10 counts as long.
pub fn read_line<R: io::Read>(
    input: &mut ReadAhead<R>,
    bytes: &mut [u8; call_lines::LONGEST],
) -> io::Result<Line>
    ensures { IfOk result (IsLine (left_of R.remaining input.old) (left_of R.remaining input.new) bytes.new) }
{
    for n in 0..=call_lines::LONGEST {
        match input.next_byte()? {
            Some(LINE_END) => return Ok(Line::Short(n)),
            Some(byte) if n < call_lines::LONGEST => bytes[n] = byte,
            Some(_) => {}
            None if n == 0 => return Ok(Line::End),
            None => return Ok(Line::Long),
        }
    }
    Ok(Line::Long)
}

// Reads a text of n bytes and the byte 10 after it, and keeps what there is room for.
pub fn read_text<R: io::Read>(
    input: &mut ReadAhead<R>,
    n: u64,
    room: &mut [u8; ROOM],
) -> Result<(), TextError>
    ensures { OnOk result (TextRead n (left_of R.remaining input.old) (left_of R.remaining input.new) room.new) }
{
    let kept = n.min(ROOM as u64);
    read_kept(input, &mut room[..kept as usize])?;
    pass_over(input, n - kept)?;
    match input.next_byte()? {
        Some(LINE_END) => Ok(()),
        _ => Err(TextError::NoLineEnd),
    }
}

// Reads as many bytes as there is room for.
fn read_kept<R: io::Read>(input: &mut ReadAhead<R>, room: &mut [u8]) -> Result<(), TextError>
    ensures { OnOk result (Consumes (left_of R.remaining input.old) (left_of R.remaining input.new) room.new) }
{
    for byte in room.iter_mut() {
        *byte = due_byte(input)?;
    }
    Ok(())
}

// Reads n bytes and keeps none.
fn pass_over<R: io::Read>(input: &mut ReadAhead<R>, n: u64) -> Result<(), TextError>
    ensures { OnOk result ((bytes : List ℕ) × (length bytes ≡ n)
        × Consumes (left_of R.remaining input.old) (left_of R.remaining input.new) bytes) }
{
    let mut left = n;
    while 0 < left {
        due_byte(input)?;
        left = input.skip(left - 1);
    }
    Ok(())
}

fn due_byte<R: io::Read>(input: &mut ReadAhead<R>) -> Result<u8, TextError>
    ensures { IfOk result (λ byte. Consumes (left_of R.remaining input.old) (left_of R.remaining input.new) (byte ∷ [])) }
{
    input.next_byte()?.ok_or(TextError::Missing)
}
