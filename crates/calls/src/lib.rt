// A desk call made on the desk, and the line of its answer put at the start of what is lent: the next desk and the line are those of
// specs/Calls, for every desk and every argument. Of a measure's line it is the head; the places follow in pieces (answer_lines).
#![tactic(auto)]

ghost use Rattle.std.specs.Prelude.{ℕ, min, ◌≡◌, List, length, take};
ghost use Rattle.io.specs.Counts.{IsPrefixLen};
ghost use Rattle.desk.specs.Desk.{load_of, advance_of, tell_of, drop_of};
ghost use Rattle.answer_lines.specs.Answers.{drop_word, done_line, advance_line, verdict_line};
ghost use Rattle.calls.specs.Calls.{IsText, line_loaded, MeasureSaid};

use answer_lines::{Head, ROOM};
use desk::Desk;

// The longest text that is not turned down for its length, and one byte: no answer depends on more.
pub const ENOUGH: usize = limits::MAX_BYTES + 1;

// The room for a measure's places: twice as many as a design has states.
pub const PLACES: usize = 2 * limits::MAX_STATES;

// The desk after a call, and the length of its answer's line.
#[derive(Drop)]
pub struct Answered {
    pub desk: Desk,
    pub length: usize,
}

// The desk after a measure, and the head of its answer's line.
#[derive(Drop)]
pub struct AnsweredMeasure {
    pub desk: Desk,
    pub head: Head,
}

// The four calls that answer in one line have a call, an answer's type and a line each: one function over these is no plainer.

// Loads a text of n bytes, of which as many as there is room for were read.
pub fn run_load(desk: Desk, room: &[u8; ENOUGH], n: u64, line: &mut [u8; ROOM]) -> Answered
    ensures prefix_len { IsPrefixLen result.length line.new }
    ensures by_index { (text : List ℕ) → IsText n room.now text → result.desk ≡ (load_of desk text).desk }
    ensures by_index_2 { (text : List ℕ) → IsText n room.now text → take result.length line.new ≡ line_loaded desk text }
{
    let kept = n.min(ENOUGH as u64) as usize;
    let loaded = desk.load(&room[..kept]);
    let length = answer_lines::put_load(line, loaded.answer);
    Answered {
        desk: loaded.desk,
        length,
    }
}

pub fn run_advance(desk: Desk, n: u64, line: &mut [u8; ROOM]) -> Answered
    ensures prefix_len { IsPrefixLen result.length line.new }
    ensures desk_value { result.desk ≡ (advance_of desk n).desk }
    ensures line_after { take result.length line.new ≡ advance_line (advance_of desk n).answer }
{
    let advanced = desk.advance(n);
    let length = answer_lines::put_advance(line, advanced.answer);
    Answered {
        desk: advanced.desk,
        length,
    }
}

pub fn run_verdict(desk: Desk, line: &mut [u8; ROOM]) -> Answered
    ensures prefix_len { IsPrefixLen result.length line.new }
    ensures desk_value { result.desk ≡ (tell_of desk).desk }
    ensures line_after { take result.length line.new ≡ verdict_line (tell_of desk).answer }
{
    let told = desk.verdict();
    let length = answer_lines::put_verdict(line, told.answer);
    Answered {
        desk: told.desk,
        length,
    }
}

// Makes a measure in the first n of the places lent, or all; they hold 65535 before it.
pub fn run_measure(desk: Desk, places: &mut [u16], n: u64, line: &mut [u8; ROOM]) -> AnsweredMeasure
    ensures prefix_len { IsPrefixLen result.head.length line.new }
    ensures desk_value { result.desk ≡ desk }
    ensures measure_said { MeasureSaid desk (min n (length places.old)) (take n places.new) (take result.head.length line.new) result.head.places }
{
    let count = n.min(places.len() as u64) as usize;
    let slice = &mut places[..count];
    slice.fill(65535);
    let measured = desk.measure(slice);
    let head = answer_lines::put_measured(line, measured.answer);
    AnsweredMeasure {
        desk: measured.desk,
        head,
    }
}

pub fn run_drop(desk: Desk, line: &mut [u8; ROOM]) -> Answered
    ensures prefix_len { IsPrefixLen result.length line.new }
    ensures desk_value { result.desk ≡ (drop_of desk).desk }
    ensures line_after { take result.length line.new ≡ done_line drop_word (drop_of desk).answer }
{
    let dropped = desk.drop();
    let length = answer_lines::put_drop(line, dropped.answer);
    Answered {
        desk: dropped.desk,
        length,
    }
}
