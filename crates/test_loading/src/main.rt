// Loads each text that an argument names, and writes a line for each: its fault, how many lines of kinds 1 to 4 and 8 the desk's
// arrays hold, a check number over all fields and one over all starts of lines, and of each line its kind and how many fields it has.
//
// The texts are in data/, with the expected output made by tools/loading_texts.py, which says what each is and which fault it has.
#![tactic(auto)]

use design::Counts;
use layout::{Lent, Lines};
use std::env::{Env, FillError};
use std::fs::{File, Files};
use std::io;
use std::io::{ErrorKind, Print, Write};
use streams::Input;

// Room for a name, and for a text.
const NAME: usize = 4096;

const TEXT: usize = 65536;

// The check number's modulus and factor.
const MODULUS: u32 = 65521;

const FACTOR: u32 = 31;

// What stands in the arrays before they are told what they hold.
const BEFORE: u16 = 9;

fn main(rt: HostRuntime) -> io::Result<()> {
    for i in 1..usize::MAX {
        let mut name = [0u8; NAME];
        match rt.arg(i, &mut name) {
            Ok(k) => run_named(&rt, &mut rt.stderr(), &name[..k])?,
            Err(FillError::TooLong) => return Err(io::Error::from(ErrorKind::InvalidFilename)),
            Err(FillError::NotPresent) => return Ok(()),
        }
    }
    Ok(())
}

fn run_named<R: Files + Print, W: Write>(rt: &R, errors: &mut W, name: &[u8]) -> io::Result<()> {
    match str::from_utf8(name) {
        Ok(path) => run_case(rt, errors, path),
        Err(_) => Err(io::Error::from(ErrorKind::InvalidFilename)),
    }
}

fn run_case<R: Files + Print, W: Write>(rt: &R, errors: &mut W, name: &str) -> io::Result<()> {
    match File::open(rt, name) {
        Ok(mut file) => run_text(rt, name, &mut file),
        Err(error) => streams::fail(errors, name.as_bytes(), error),
    }
}

fn run_text<P: Print, R: io::Read>(rt: &P, name: &str, file: &mut R) -> io::Result<()> {
    let mut text = [0u8; TEXT];
    match streams::read_input(file, &mut text)? {
        Input::Ended(n) => write_case(rt, name, &text[..n]),
        Input::Full => write_case(rt, name, &text),
    }
}

fn write_case<P: Print>(rt: &P, name: &str, text: &[u8]) -> io::Result<()> {
    print!(rt; "{name}")?;
    match loader::load(text) {
        Ok(loaded) => write_loaded(rt, 0, loaded.lines, loaded.counts),
        Err(_) => write_held(rt, text),
    }
}

// Of a text that is turned down, what C is told.
fn write_held<P: Print>(rt: &P, text: &[u8]) -> io::Result<()> {
    let mut fields = [BEFORE; limits::MAX_FIELDS];
    let mut starts = [BEFORE; limits::STARTS];
    let mut counts = [usize::from(BEFORE); 5];
    let fault = looking::hold_design(text, &mut fields, &mut starts, &mut counts);
    let lines = Lines { fields, starts };
    write_loaded(rt, fault, lines, desk_numbers::counts_in(counts))
}

fn write_loaded<P: Print>(rt: &P, fault: u32, lines: Lines, counts: Counts) -> io::Result<()> {
    print!(rt; ": fault {fault}, lines ")?;
    print!(rt;
        "{} {} {} {}",
        counts.kind1, counts.kind2, counts.kind3, counts.kind4
    )?;
    print!(rt; " {}, fields {}", counts.kind8, check_number(&lines.fields))?;
    print!(rt; ", starts {}", check_number(&lines.starts))?;
    write_lines(rt, &lines)?;
    print!(rt; "\n")
}

// A number that tells lists apart.
fn check_number(list: &[u16]) -> u32 {
    list.iter().fold(0, |number, n| mixed(number, *n))
}

fn mixed(number: u32, n: u16) -> u32 {
    (number % MODULUS * FACTOR + u32::from(n)) % MODULUS
}

fn write_lines<P: Print>(rt: &P, lines: &Lines) -> io::Result<()> {
    let lent = Lent {
        fields: &lines.fields,
        starts: &lines.starts,
    };
    for i in 0..limits::MAX_LINES {
        write_line(rt, &lines.fields, lent.line(i), lent.line(i + 1))?;
    }
    Ok(())
}

// A line's kind and length, where it has fields.
fn write_line<P: Print>(rt: &P, fields: &limits::Fields, start: u16, end: u16) -> io::Result<()> {
    if start < end {
        print!(rt;
            ", {} of {}",
            terms::field(fields, usize::from(start)),
            end - start
        )?;
    }
    Ok(())
}
