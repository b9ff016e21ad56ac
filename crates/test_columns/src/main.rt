// Runs the edges of a text's columns and of the report, and writes a line for each case.
//
// First the cases of standard input: words, and bytes in brackets. The bytes are taken as a text, whose fault is written, and as a part
// of a line: how many fields it begins with, the first and the second field, and what is left after the first. Then texts at the
// limits, numbers that are written and read back, and reports, both among dots.
#![tactic(auto)]

ghost use Rattle.std.specs.Prelude.{◌≤◌, length};

use std::io;
use std::io::Print;
use streams::Input;
use verdicts::Report;

// Room for the cases of standard input.
const CASES: usize = 65536;

const FIELD: usize = 6;

const LINE_END: u8 = 10;

// A byte that no field has.
const DOT: u8 = 46;

const OPEN: u8 = 91;

const CLOSE: u8 = 93;

// Room for the longest text of the cases.
const ROOM: usize = 28680;

fn main(rt: HostRuntime) -> io::Result<()> {
    let mut input = [0u8; CASES];
    match streams::read_input(&mut rt.stdin(), &mut input)? {
        Input::Ended(n) => run_cases(&rt, &input[..n])?,
        Input::Full => run_cases(&rt, &input)?,
    }
    run_limits(&rt)?;
    run_written(&rt)?;
    run_reports(&rt)
}

// ---- the cases of standard input

// The bytes of a case may be any, line ends too, so a split of the input is no plainer than the places of two brackets.
fn run_cases<P: Print>(rt: &P, input: &[u8]) -> io::Result<()> {
    let mut at = 0;
    while at < input.len() {
        let open = find(input, at, OPEN);
        let close = find(input, open, CLOSE);
        run_case(rt, &input[at..open], &input[open..close])?;
        at = close + 2;
    }
    Ok(())
}

// The place of a byte from a place on, or the end.
fn find(input: &[u8], from: usize, byte: u8) -> usize
    requires { from ≤ length input.now }
    ensures { (from ≤ result) × (result ≤ length input.now) }
{
    match input[from..].iter().position(|b| *b == byte) {
        Some(i) => from + i,
        None => input.len(),
    }
}

// The bytes are given with the bracket before them.
fn run_case<P: Print>(rt: &P, words: &[u8], bytes: &[u8]) -> io::Result<()> {
    if let Some((_, bytes)) = bytes.split_first() {
        rt.write_all(words)?;
        write_case(rt, bytes)?;
    }
    Ok(())
}

fn write_case<P: Print>(rt: &P, bytes: &[u8]) -> io::Result<()> {
    write_in_brackets(rt, bytes)?;
    write_fault(rt, bytes)?;
    print!(rt; ", fields {}, the first", reader::count(bytes))?;
    write_field(rt, reader::field_at(bytes, 0))?;
    print!(rt; ", the second")?;
    write_field(rt, reader::field_at(bytes, 1))?;
    print!(rt; ", after the first ")?;
    write_in_brackets(rt, reader::rest(bytes, 1))?;
    write_end(rt)
}

// ---- texts at the limits: lines of as many fields each, and a last line

fn run_limits<P: Print>(rt: &P) -> io::Result<()> {
    run_long_lines(rt)?;
    run_long_texts(rt)?;
    run_damaged_texts(rt)
}

fn run_long_lines<P: Print>(rt: &P) -> io::Result<()> {
    limit(rt, "256 fields in a line", 0, 0, 256)?;
    limit(rt, "257 fields in a line", 0, 0, 257)?;
    limit(rt, "257 fields in the first line", 1, 257, 1)?;
    limit(rt, "257 fields in the second line", 1, 256, 257)?;
    limit(rt, "257 fields in the fourth line", 3, 256, 257)
}

fn run_long_texts<P: Print>(rt: &P) -> io::Result<()> {
    limit(rt, "4096 fields in all", 16, 256, 0)?;
    limit(rt, "4097 fields in all", 16, 256, 1)?;
    limit(rt, "4096 fields in a line", 0, 0, 4096)?;
    limit(rt, "4095 lines of a field", 4095, 1, 0)?;
    limit(rt, "4096 lines of a field", 4096, 1, 0)?;
    limit(rt, "4097 lines of a field", 4096, 1, 1)
}

fn run_damaged_texts<P: Print>(rt: &P) -> io::Result<()> {
    damaged(rt, "257 fields, then a dot", 1, 257, DOT, 1)?;
    damaged(rt, "257 fields, then an empty line", 1, 257, LINE_END, 1)?;
    damaged(rt, "4097 fields, then an empty line", 17, 241, LINE_END, 1)?;
    damaged(rt, "4095 lines, then dots", 4095, 1, DOT, 7)?;
    damaged(rt, "4096 lines, then an empty one", 4096, 1, LINE_END, 1)?;
    damaged(rt, "4096 lines, then a dot", 4096, 1, DOT, 1)?;
    damaged(
        rt,
        "long lines, then 898 empty ones",
        18,
        257,
        LINE_END,
        898,
    )?;
    damaged(
        rt,
        "long lines, then 899 empty ones",
        18,
        257,
        LINE_END,
        899,
    )
}

fn limit<P: Print>(rt: &P, words: &str, lines: usize, each: usize, last: usize) -> io::Result<()> {
    let mut bytes = [0u8; ROOM];
    let at = put_lines(&mut bytes, 0, lines, each);
    let n = put_line(&mut bytes, at, last);
    write_limit(rt, words, &bytes, n)
}

// Lines of as many fields each, and then one byte as often as said.
fn damaged<P: Print>(
    rt: &P,
    words: &str,
    lines: usize,
    each: usize,
    byte: u8,
    times: usize,
) -> io::Result<()> {
    let mut bytes = [0u8; ROOM];
    let at = put_lines(&mut bytes, 0, lines, each);
    let n = put_bytes(&mut bytes, at, byte, times);
    write_limit(rt, words, &bytes, n)
}

fn write_limit<P: Print>(rt: &P, words: &str, bytes: &[u8], n: usize) -> io::Result<()> {
    print!(rt; "{words}, bytes {n}")?;
    write_fault_of(rt, bytes, n)?;
    write_end(rt)
}

// ---- numbers written and read back

fn run_written<P: Print>(rt: &P) -> io::Result<()> {
    let numbers = [
        0u16, 1, 9, 10, 11, 99, 100, 101, 999, 1000, 9999, 10000, 10001, 32768, 65534, 65535,
    ];
    write_numbers(rt, &numbers)?;
    print!(rt; "numbers read back {}", count_read_back())?;
    write_end(rt)
}

fn write_numbers<P: Print>(rt: &P, numbers: &[u16]) -> io::Result<()> {
    for n in numbers {
        write_number(rt, *n)?;
    }
    Ok(())
}

// A number among dots, and what is read there.
fn write_number<P: Print>(rt: &P, n: u16) -> io::Result<()> {
    let mut bytes = [DOT; 12];
    writer::put_field(&mut bytes, 3, n);
    print!(rt; "{n} is written ")?;
    write_in_brackets(rt, &bytes)?;
    print!(rt; ", which")?;
    write_field(rt, reader::field_at(&bytes[3..], 0))?;
    write_end(rt)
}

// How many of all numbers are read back as they were written.
fn count_read_back() -> usize {
    (0..=u16::MAX).filter(|n| is_read_back(*n)).count()
}

// From six bytes, and from these with two more behind them.
fn is_read_back(n: u16) -> bool {
    let mut six = [DOT; FIELD];
    writer::put_field(&mut six, 0, n);
    let mut eight = [DOT; FIELD + 2];
    writer::put_field(&mut eight, 0, n);
    is_first(&six, n) && is_first(&eight, n)
}

fn is_first(bytes: &[u8], n: u16) -> bool {
    reader::field_at(bytes, 0) == Some(n)
}

// ---- the report, among dots

fn run_reports<P: Print>(rt: &P) -> io::Result<()> {
    report(rt, 0, 0, 0, 0, 0)?;
    report(rt, 1, 8, 9, 3, 0)?;
    report(rt, 1, 9, 0, 1, 1)?;
    report(rt, 2, 7, 0, 0, 0)?;
    report(rt, 1, 6, 65535, 32, 255)?;
    report(rt, 65535, 65535, 65535, 65535, 65535)?;
    report(rt, 1, 12, 123, 1234, 12345)
}

fn report<P: Print>(
    rt: &P,
    verdict: u16,
    number: u16,
    state: u16,
    row: u16,
    sum: u16,
) -> io::Result<()> {
    let report = Report {
        verdict,
        number,
        state,
        row,
        sum,
    };
    let mut long = [DOT; 36];
    writer::put_report(&mut long, report);
    write_in_brackets(rt, &long)?;
    let mut short = [DOT; writer::REPORT_BYTES];
    writer::put_report(&mut short, report);
    write_in_brackets(rt, &short)?;
    write_end(rt)
}

// ---- writing to standard output

fn write_fault<P: Print>(rt: &P, text: &[u8]) -> io::Result<()> {
    match text_check::columns_fault(text) {
        Ok(()) => print!(rt; ", fault 0"),
        Err(fault) => print!(rt; ", fault {}", fault.number()),
    }
}

// The fault of the text in the first n bytes.
fn write_fault_of<P: Print>(rt: &P, bytes: &[u8], n: usize) -> io::Result<()> {
    if n <= bytes.len() {
        write_fault(rt, &bytes[..n])?;
    }
    Ok(())
}

fn write_field<P: Print>(rt: &P, field: Option<u16>) -> io::Result<()> {
    match field {
        Some(n) => print!(rt; " is {n}"),
        None => print!(rt; " is no field"),
    }
}

fn write_in_brackets<P: Print>(rt: &P, bytes: &[u8]) -> io::Result<()> {
    print!(rt; "[")?;
    rt.write_all(bytes)?;
    print!(rt; "]")
}

fn write_end<P: Print>(rt: &P) -> io::Result<()> {
    print!(rt; "\n")
}

// ---- filling a buffer, as far as there is room; each gives the place after what it has put

fn put_lines(buffer: &mut [u8], from: usize, lines: usize, each: usize) -> usize {
    let mut at = from;
    for _ in 0..lines {
        at = put_line(buffer, at, each);
    }
    at
}

// A line of n fields; no line where n is 0.
fn put_line(buffer: &mut [u8], from: usize, n: usize) -> usize {
    if n == 0 {
        return from;
    }
    let mut at = from;
    for _ in 0..n {
        at = put_one(buffer, at);
    }
    put_byte(buffer, at, LINE_END)
}

// The field 1.
fn put_one(buffer: &mut [u8], at: usize) -> usize {
    if buffer.len() < FIELD || buffer.len() - FIELD < at {
        return at;
    }
    writer::put_field(buffer, at, 1);
    at + FIELD
}

fn put_bytes(buffer: &mut [u8], from: usize, byte: u8, times: usize) -> usize {
    let mut at = from;
    for _ in 0..times {
        at = put_byte(buffer, at, byte);
    }
    at
}

fn put_byte(buffer: &mut [u8], at: usize, byte: u8) -> usize {
    if buffer.len() <= at {
        return at;
    }
    buffer[at] = byte;
    at + 1
}
