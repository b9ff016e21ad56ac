// Runs the cases of standard input, a line each, and writes a line for each.
//
// A case is a line of fields: its number; 0 for a value, 1 for a formula; the depth asked for; how many parameters there are; 1 in a row,
// 0 outside; the sum value; the values of the first two parameters; and then the term. It is checked on the line's bytes. Where it
// passes it is evaluated twice: at the start of a desk's fields, and at their very end.
//
// 1 to 12 are leaves at their extremes; 13 to 21 parameters that do not exist and the sum value outside a row; 22 to 66 the marks 3, 4, 5,
// 12 and 13 on all pairs of 0, 1 and 65,535; 67 to 70 other remainders; 71 to 86 choices and formulas; 87 to 105 wrong marks; 106 to
// 126 lines that end early or go on; 127 to 131 six columns that are no field; 132 to 184 depths 32 and 33 through each mark, and
// small depths; 185 to 202 terms of 255 fields within depth 32, and what is just over.
#![tactic(auto)]

use std::io;
use std::io::Print;
use streams::Input;

// Room for the cases.
const ROOM: usize = 65536;

const LINE_END: u8 = 10;

// The fields of a case before its term.
const HEAD: usize = 8;

fn main(rt: HostRuntime) -> io::Result<()> {
    let mut text = [0u8; ROOM];
    match streams::read_input(&mut rt.stdin(), &mut text)? {
        Input::Ended(n) => run_lines(&rt, &text[..n]),
        Input::Full => run_lines(&rt, &text),
    }
}

fn run_lines<P: Print>(rt: &P, text: &[u8]) -> io::Result<()> {
    for line in text.split_inclusive(|byte| *byte == LINE_END) {
        run_case(rt, line.strip_suffix(&[LINE_END]).unwrap_or(line))?;
    }
    Ok(())
}

fn run_case<P: Print>(rt: &P, line: &[u8]) -> io::Result<()> {
    print!(rt; "case {}", number(line, 0))?;
    match check(line) {
        Some(n) => {
            print!(rt; ": takes {n} of {}", count_after_head(line))?;
            evaluate(rt, line, ", at the start ", 0)?;
            evaluate(rt, line, ", at the end ", place_at_end(n))?;
        }
        None => {
            print!(rt; ": wrong")?;
        }
    }
    print!(rt; "\n")
}

fn check(line: &[u8]) -> Option<usize> {
    let part = reader::rest(line, HEAD);
    let params = number(line, 3);
    let row = number(line, 4) == 1;
    let depth = usize::from(number(line, 2));
    if number(line, 1) == 0 {
        term_check::value(part, params, row, depth)
    } else {
        term_check::formula(part, params, row, depth)
    }
}

// Puts the term's fields at a place, evaluates it there, and writes what it evaluates to and how many fields on the next term stands.
fn evaluate<P: Print>(rt: &P, line: &[u8], words: &str, at: usize) -> io::Result<()> {
    let mut fields = [0u16; limits::MAX_FIELDS];
    copy(reader::rest(line, HEAD), &mut fields, at);
    let params = [number(line, 6), number(line, 7), 0, 0, 0, 0, 0, 0];
    let sum = number(line, 5);
    let depth = usize::from(number(line, 2));
    print!(rt; "{words}")?;
    if number(line, 1) == 0 {
        let r = eval::value(&fields, at, &params, sum, depth);
        print!(rt; "{}", r.value)?;
        write_after(rt, at, r.next)
    } else {
        let r = eval::formula(&fields, at, &params, sum, depth);
        print!(rt; "{}", u64::from(r.holds))?;
        write_after(rt, at, r.next)
    }
}

fn write_after<P: Print>(rt: &P, at: usize, next: usize) -> io::Result<()> {
    print!(rt; " after {}", next.wrapping_sub(at))
}

// The place from which n fields reach the end.
fn place_at_end(n: usize) -> usize {
    if n <= limits::MAX_FIELDS {
        limits::MAX_FIELDS - n
    } else {
        0
    }
}

// The part's fields from a place on, and zeros after them.
fn copy(part: &[u8], fields: &mut limits::Fields, at: usize) {
    for i in at..limits::MAX_FIELDS {
        fields[i] = number(part, i - at);
    }
}

fn count_after_head(line: &[u8]) -> usize {
    reader::count(reader::rest(line, HEAD))
}

// The k-th field of a line, or 0 where there is none.
fn number(line: &[u8], k: usize) -> u16 {
    reader::field_at(line, k).unwrap_or(0)
}
