// The report on a text that was read from an input: from the bytes read and how reading ended to the bytes to write. What they are is
// in specs/Output, for every input that may have been read so.
#![tactic(auto)]

ghost use Rattle.std.specs.Prelude.{ℕ, ◌≡◌, List, take};
ghost use Rattle.io.specs.Counts.{IsPrefixLen};
ghost use Rattle.writer.specs.Report.{report_bytes};
ghost use Rattle.checker.specs.OneCall.{judged_of};
ghost use Rattle.table_input.specs.Output.{IsInput, output_of};

use std::io;
use streams::Input;

// The longest text that is not turned down for its length, and one byte: no report depends on more.
pub const ENOUGH: usize = limits::MAX_BYTES + 1;

// Puts what is to be written at the start of the output and answers its length: the report, or nothing of an input that could not be
// read.
pub fn put_output(
    room: &[u8; ENOUGH],
    input: io::Result<Input>,
    output: &mut [u8; writer::REPORT_BYTES],
) -> usize
    ensures prefix_len { IsPrefixLen result output.new }
    ensures output_after { take result output.new ≡ output_of input room.now }
    ensures by_index { (text : List ℕ) → IsInput input room.now text → take result output.new ≡ report_bytes (judged_of text) }
{
    match input {
        Ok(Input::Ended(n)) => put_start(room, n, output),
        Ok(Input::Full) => put_start(room, ENOUGH, output),
        Err(_) => 0,
    }
}

// Puts the report on the first n bytes, or all.
fn put_start(bytes: &[u8], n: usize, output: &mut [u8; writer::REPORT_BYTES]) -> usize
    ensures value { result ≡ 31 }
    ensures output_after { output.new ≡ report_bytes (judged_of (take n bytes.now)) }
{
    checker::check_design(&bytes[..n.min(bytes.len())], output);
    writer::REPORT_BYTES
}
