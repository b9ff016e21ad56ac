// A desk call's answer as a line: `load 0`, `open N`, `accepted N` or `accepted3 N`, `failed N`, `verdict` and the report's five numbers,
// `measure` or `loop S` and the numbers of all places, `drop 0`, and `turned down N`; and the lines with which a list of calls ends early.
// Each is put at the start of what is lent, and its length is answered; the lines are in specs/Answers, one equation for every answer. The
// line of a measure may be long, and is put in pieces: its head, then places, as many as there is room for, until there are no more, then
// byte 10.
#![tactic(auto)]

ghost use Rattle.std.specs.Prelude.{◌+◌, ◌≤◌, ◌≡◌, [], ◌∷◌, ◌++◌, length, take};
ghost use Rattle.io.specs.Counts.{IsPrefixLen};
ghost use Rattle.call_lines.specs.Number.{decimal_of};
ghost use Rattle.answer_lines.specs.Answers.{load_word, drop_word, loop_word, numbered, done_line, accepted_word, advance_line, report_line, verdict_line, measure_head, places_follow, IsPiece, stop_words, stop_line};

use answers::{Advance, Done, Measured, Verdict};
use verdicts::{Acceptance, Report};

// Room for every line, and for a piece of a measure's with hundreds of places. It is lent, and a length answered: memory is fixed.
pub const ROOM: usize = 4096;

// The last place of a line from which a blank and a number have room.
const LAST: usize = ROOM - 21;

// Why a list of calls ends before its input does.
#[derive(Clone, Copy)]
pub enum Stop {
    NoCall,
    TextMissing,
    NoLineEnd,
    NoRoom,
}

impl Stop {
    // What is said after the number of the line, and the end of the line.
    fn words(self) -> &'static [u8]
        ensures value { result.now ≡ stop_words self }
        ensures upper_bound { length result.now ≤ 40 }
    {
        match self {
            Stop::NoCall => b": no call\n",
            Stop::TextMissing => b": the text is not there in full\n",
            Stop::NoLineEnd => b": no line end after the text\n",
            Stop::NoRoom => b": no room for so many places\n",
        }
    }
}

// The length of a measure's head, and whether the places follow: both kinds have a length, so an enum of two is no plainer.
#[derive(Clone, Copy)]
pub struct Head {
    pub length: usize,
    pub places: bool,
}

// The length of a piece, and the first place that is not in it.
#[derive(Clone, Copy)]
pub struct Piece {
    pub length: usize,
    pub next: usize,
}

// The line of a load's answer.
pub fn put_load(line: &mut [u8; ROOM], answer: Done) -> usize
    ensures prefix_len { IsPrefixLen result line.new }
    ensures line_after { take result line.new ≡ done_line load_word answer }
{
    put_done(line, b"load", answer)
}

// The line of a drop's answer.
pub fn put_drop(line: &mut [u8; ROOM], answer: Done) -> usize
    ensures prefix_len { IsPrefixLen result line.new }
    ensures line_after { take result line.new ≡ done_line drop_word answer }
{
    put_done(line, b"drop", answer)
}

// The line of an advance's answer.
pub fn put_advance(line: &mut [u8; ROOM], answer: Advance) -> usize
    ensures prefix_len { IsPrefixLen result line.new }
    ensures line_after { take result line.new ≡ advance_line answer }
{
    match answer {
        Advance::Open(count) => put_numbered(line, b"open ", count as u64),
        Advance::Accepted(how, count) => put_accepted(line, how, count),
        Advance::Failed(count) => put_numbered(line, b"failed ", count as u64),
        Advance::TurnedDown(number) => put_numbered(line, b"turned down ", u64::from(number)),
    }
}

// The line of a verdict's answer.
pub fn put_verdict(line: &mut [u8; ROOM], answer: Verdict) -> usize
    ensures prefix_len { IsPrefixLen result line.new }
    ensures line_after { take result line.new ≡ verdict_line answer }
{
    match answer {
        Verdict::Accepted(_) | Verdict::Failed(_) => {
            put_report(line, answers::verdict_numbers(answer))
        }
        Verdict::TurnedDown(number) => put_numbered(line, b"turned down ", u64::from(number)),
    }
}

// The head of a measure's answer: the whole line if it is turned down.
pub fn put_measured(line: &mut [u8; ROOM], answer: Measured) -> Head
    ensures prefix_len { IsPrefixLen result.length line.new }
    ensures line_after { take result.length line.new ≡ measure_head answer }
    ensures places_value { result.places ≡ places_follow answer }
{
    match answer {
        Measured::Filled => Head {
            length: put(line, 0, b"measure"),
            places: true,
        },
        Measured::Loop(state) => Head {
            length: put_loop(line, state),
            places: true,
        },
        Measured::TurnedDown(number) => Head {
            length: put_numbered(line, b"turned down ", u64::from(number)),
            places: false,
        },
    }
}

// A piece with the numbers of the places from one on, at least one if there is one.
pub fn put_places(line: &mut [u8; ROOM], slice: &[u16], from: usize) -> Piece
    ensures prefix_len { IsPrefixLen result.length line.new }
    ensures piece { IsPiece slice.now from result.next (take result.length line.new) }
    ensures next_value { length slice.now ≤ from → result.next ≡ from }
{
    let mut at = 0;
    for i in from..slice.len() {
        if LAST < at {
            return Piece {
                length: at,
                next: i,
            };
        }
        at = put_next(line, at, slice[i]);
    }
    Piece {
        length: at,
        next: from.max(slice.len()),
    }
}

// The line with which a list of calls ends early, at the n-th call.
pub fn put_stop(line: &mut [u8; ROOM], why: Stop, n: u64) -> usize
    ensures prefix_len { IsPrefixLen result line.new }
    ensures line_after { take result line.new ≡ stop_line why n }
{
    let a = put(line, 0, b"line ");
    let b = put_number(line, a, n);
    put(line, b, why.words())
}

// ---- their parts

fn put_done(line: &mut [u8; ROOM], word: &[u8], answer: Done) -> usize
    requires { length word.now ≤ 20 }
    ensures prefix_len { IsPrefixLen result line.new }
    ensures line_after { take result line.new ≡ done_line word.now answer }
{
    match answer {
        Done::Done => {
            let a = put(line, 0, word);
            put(line, a, b" 0\n")
        }
        Done::TurnedDown(number) => put_numbered(line, b"turned down ", u64::from(number)),
    }
}

fn put_accepted(line: &mut [u8; ROOM], how: Acceptance, count: usize) -> usize
    ensures prefix_len { IsPrefixLen result line.new }
    ensures line_after { take result line.new ≡ numbered (accepted_word how) count }
{
    match how {
        Acceptance::AsIs => put_numbered(line, b"accepted ", count as u64),
        Acceptance::AfterInternal => put_numbered(line, b"accepted3 ", count as u64),
    }
}

fn put_report(line: &mut [u8; ROOM], report: Report) -> usize
    ensures prefix_len { IsPrefixLen result line.new }
    ensures line_after { take result line.new ≡ report_line report }
{
    let a = put(line, 0, b"verdict");
    let b = put_next(line, a, report.verdict);
    let c = put_next(line, b, report.number);
    let d = put_next(line, c, report.state);
    let e = put_next(line, d, report.row);
    let f = put_next(line, e, report.sum);
    put(line, f, b"\n")
}

fn put_loop(line: &mut [u8; ROOM], state: u16) -> usize
    ensures prefix_len { IsPrefixLen result line.new }
    ensures line_after { take result line.new ≡ loop_word ++ decimal_of state }
{
    let a = put(line, 0, b"loop ");
    put_number(line, a, u64::from(state))
}

// Words and a number, and the end of the line.
fn put_numbered(line: &mut [u8; ROOM], words: &[u8], n: u64) -> usize
    requires { length words.now ≤ 20 }
    ensures prefix_len { IsPrefixLen result line.new }
    ensures line_after { take result line.new ≡ words.now ++ (decimal_of n ++ (10 ∷ [])) }
{
    let a = put(line, 0, words);
    let b = put_number(line, a, n);
    put(line, b, b"\n")
}

// A blank and a number.
fn put_next(line: &mut [u8; ROOM], at: usize, n: u16) -> usize
    requires { at ≤ 4075 }
    ensures upper_bound { result ≤ at + 21 }
    ensures line_after { take result line.new ≡ take at line.old ++ (32 ∷ decimal_of n) }
    ensures prefix_len { IsPrefixLen result line.new }
{
    let a = put(line, at, b" ");
    put_number(line, a, u64::from(n))
}

// A number in decimal.
fn put_number(line: &mut [u8; ROOM], at: usize, n: u64) -> usize
    requires { at ≤ 4076 }
    ensures upper_bound { result ≤ at + 20 }
    ensures line_after { take result line.new ≡ take at line.old ++ decimal_of n }
    ensures prefix_len { IsPrefixLen result line.new }
{
    let mut digits = [0u8; 20];
    let k = io::decimal(n, &mut digits);
    put(line, at, &digits[..k])
}

// Bytes, from a place on; answers the place after them.
fn put(line: &mut [u8; ROOM], at: usize, bytes: &[u8]) -> usize
    requires { at + length bytes.now ≤ 4096 }
    ensures value { result ≡ at + length bytes.now }
    ensures line_after { take result line.new ≡ take at line.old ++ bytes.now }
    ensures prefix_len { IsPrefixLen result line.new }
{
    let end = at + bytes.len();
    line[at..end].copy_from_slice(bytes);
    end
}
