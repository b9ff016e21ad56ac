// Makes a list of desk calls, one a line of standard input, on one desk, and writes a line with the answer of each.
//
// A call is `load N`, followed by N bytes of text and a byte 10; `advance N`; `verdict`; `measure N`, in N places that hold 65535 before;
// `drop`. N is decimal, 1 to 20 digits, up to the largest u64. The answers are `load 0`, `open N`, `accepted N` or, after a first internal
// step, `accepted3 N`, `failed N`, `verdict` and the report's five numbers, `measure` or `loop S` and the numbers of all places, `drop 0`,
// and `turned down N`. A line that is no call, a text that is not there in full, and a measure in more than 131,072 places end the program
// with a line that has the number of the call's line; the lines of the texts are not counted. Where standard input can't be read or an
// answer can't be written the program ends with a line on standard error, and makes no more calls.
//
// A line and a text are read by call_input; what a line says is in call_lines, what a call answers in calls and its line in answer_lines.
#![tactic(auto)]

use answer_lines::Stop;
use call_input::{Line, TextError};
use call_lines::Call;
use desk::Desk;
use std::io;
use std::io::{Stdin, Stdout};
use streams::ReadAhead;

// Standard input, read ahead, and standard output.
#[derive(Drop)]
struct Standard {
    input: ReadAhead<Stdin>,
    output: Stdout,
}

// Which of them failed.
#[derive(Clone, Copy)]
enum Failed {
    Input(io::Error),
    Output(io::Error),
}

// Why a list of calls ends: no line is left, or early.
#[derive(Clone, Copy)]
enum Ending {
    NoLine,
    Stopped(Stop),
    Failed(Failed),
}

impl From<Failed> for Ending {
    fn from(failed: Failed) -> Ending {
        Ending::Failed(failed)
    }
}

impl From<TextError> for Ending {
    fn from(error: TextError) -> Ending {
        match error {
            TextError::Missing => Ending::Stopped(Stop::TextMissing),
            TextError::NoLineEnd => Ending::Stopped(Stop::NoLineEnd),
            TextError::NotRead(error) => Ending::Failed(Failed::Input(error)),
        }
    }
}

fn main(rt: HostRuntime) {
    let mut standard = Standard {
        input: ReadAhead::new(rt.stdin()),
        output: rt.stdout(),
    };
    let _ = match run_calls(&mut standard) {
        Ok(()) => Ok(()),
        Err(Failed::Input(error)) => {
            streams::fail(&mut rt.stderr(), b"desk_calls: standard input", error)
        }
        Err(Failed::Output(error)) => {
            streams::fail(&mut rt.stderr(), b"desk_calls: standard output", error)
        }
    };
}

fn run_calls(standard: &mut Standard) -> Result<(), Failed> {
    let mut desk = Desk::empty();
    for line in 1..u64::MAX {
        match run_next(standard, desk) {
            Ok(next) => desk = next,
            Err(Ending::NoLine) => return Ok(()),
            Err(Ending::Stopped(why)) => return write_stop(standard, why, line),
            Err(Ending::Failed(failed)) => return Err(failed),
        }
    }
    Ok(())
}

// Reads a line and makes the call that it says.
fn run_next(standard: &mut Standard, desk: Desk) -> Result<Desk, Ending> {
    let mut bytes = [0u8; call_lines::LONGEST];
    match call_input::read_line(&mut standard.input, &mut bytes).map_err(Failed::Input)? {
        Line::Short(n) => {
            let call = call_lines::call_of(&bytes[..n]).ok_or(Ending::Stopped(Stop::NoCall))?;
            run_call(standard, desk, call)
        }
        Line::Long => Err(Ending::Stopped(Stop::NoCall)),
        Line::End => Err(Ending::NoLine),
    }
}

// Makes a call, and writes the line of its answer.
fn run_call(standard: &mut Standard, desk: Desk, call: Call) -> Result<Desk, Ending> {
    let mut line = [0u8; answer_lines::ROOM];
    let answered = match call {
        Call::Load(n) => return run_load(standard, desk, n),
        Call::Advance(n) => calls::run_advance(desk, n, &mut line),
        Call::Verdict => calls::run_verdict(desk, &mut line),
        Call::Measure(n) => return run_measure(standard, desk, n),
        Call::Drop => calls::run_drop(desk, &mut line),
    };
    write(standard, &line[..answered.length])?;
    Ok(answered.desk)
}

// Apart, as a measure is: where its room is in the frame of every call, each call touches all of it.
#[inline(never)]
fn run_load(standard: &mut Standard, desk: Desk, n: u64) -> Result<Desk, Ending> {
    let mut room = [0u8; calls::ENOUGH];
    call_input::read_text(&mut standard.input, n, &mut room)?;
    let mut line = [0u8; answer_lines::ROOM];
    let answered = calls::run_load(desk, &room, n, &mut line);
    write(standard, &line[..answered.length])?;
    Ok(answered.desk)
}

#[inline(never)]
fn run_measure(standard: &mut Standard, desk: Desk, n: u64) -> Result<Desk, Ending> {
    if (calls::PLACES as u64) < n {
        return Err(Ending::Stopped(Stop::NoRoom));
    }
    let mut places = [0u16; calls::PLACES];
    let mut line = [0u8; answer_lines::ROOM];
    let answered = calls::run_measure(desk, &mut places, n, &mut line);
    write(standard, &line[..answered.head.length])?;
    if answered.head.places {
        write_places(standard, &places[..n as usize])?;
    }
    Ok(answered.desk)
}

// Writes the numbers of places and the end of the line.
fn write_places(standard: &mut Standard, slice: &[u16]) -> Result<(), Failed> {
    let mut piece = [0u8; answer_lines::ROOM];
    let mut from = 0;
    while from < slice.len() {
        let put = answer_lines::put_places(&mut piece, slice, from);
        write(standard, &piece[..put.length])?;
        from = put.next;
    }
    write(standard, b"\n")
}

// Writes the line that says why a list of calls ends.
fn write_stop(standard: &mut Standard, why: Stop, n: u64) -> Result<(), Failed> {
    let mut line = [0u8; answer_lines::ROOM];
    let length = answer_lines::put_stop(&mut line, why, n);
    write(standard, &line[..length])
}

fn write(standard: &mut Standard, bytes: &[u8]) -> Result<(), Failed> {
    streams::write_all(&mut standard.output, bytes).map_err(Failed::Output)
}
