// The desk: a design is loaded, its states are examined in as many calls as one likes, and the verdict is told (01, "The desk"); a measure is
// made for it (02, order 4). Each call takes the desk and gives the next one back beside its answer; a call turned down gives it back as it
// was. What each call answers is in specs/Desk and specs/Measure, for every desk and every argument; the paper's numbers for it are in
// specs/Answers and in the crate answers.
#![tactic(auto)]

ghost use Rattle.std.specs.Prelude.{◌≡◌, length};
ghost use Rattle.loader.specs.Load.{loaded_of};
ghost use Rattle.answers.specs.Answers.{done_number, refusal_number, count_said, verdict_numbers, measured_number, advance_number, verdict_numbers_by, empty_number};
ghost use Rattle.desk.specs.Answers.{load_number, advance_count};
ghost use Rattle.desk.specs.Limits.{desk_limits};
ghost use Rattle.desk.specs.Measure.{MeasureNumber, MeasureOf};
ghost use Rattle.desk.specs.Desk.{empty_desk, load_empty, load_of, examine_open, advance_of, tell_of, drop_of};

use answers::{Advance, Done, Measured, Phase, Verdict};
use design::Counts;
use layout::{Lent, Lines};

#[derive(Drop)]
pub struct Desk {
    // The text's lines.
    pub lines: Lines,
    pub counts: Counts,
    // What the walk needs to know of every state, worked out when the text is loaded.
    pub plan: [u16; walk::PLAN_LENGTH],
    // The number of the next state to examine.
    pub next: usize,
    pub phase: Phase,
}

// The limits of a design text; `line` is that of a line's fields.
#[derive(Drop)]
pub struct Limits {
    pub bytes: usize,
    pub line: usize,
    pub fields: usize,
    pub depth: usize,
    pub parameters: usize,
    pub rows: usize,
    pub span: u16,
    pub states: usize,
}

// Each answer beside the next desk.
#[derive(Drop)]
pub struct AfterLoad {
    pub answer: Done,
    pub desk: Desk,
}

#[derive(Drop)]
pub struct AfterAdvance {
    pub answer: Advance,
    pub desk: Desk,
}

#[derive(Drop)]
pub struct AfterVerdict {
    pub answer: Verdict,
    pub desk: Desk,
}

#[derive(Drop)]
pub struct AfterMeasure {
    pub answer: Measured,
    pub desk: Desk,
}

#[derive(Drop)]
pub struct AfterDrop {
    pub answer: Done,
    pub desk: Desk,
}

impl Desk {
    // The limits of a text: its bytes, the fields of a line and in all, the depth of a term, the parameters and rows of a process,
    // the sum values of a row, the states. That they are those of the faults is what `Desk::limits` promises.
    pub const MAX_BYTES: usize = limits::MAX_BYTES;

    pub const MAX_LINE_FIELDS: usize = limits::MAX_LINE_FIELDS;

    pub const MAX_FIELDS: usize = limits::MAX_FIELDS;

    pub const MAX_DEPTH: usize = limits::MAX_DEPTH;

    pub const MAX_PARAMETERS: usize = limits::MAX_PARAMETERS;

    pub const MAX_ROWS: usize = limits::MAX_ROWS;

    pub const MAX_SPAN: u16 = limits::MAX_SPAN;

    pub const MAX_STATES: usize = limits::MAX_STATES;

    // The limits of what a desk takes.
    pub fn limits() -> Limits
        ensures { result ≡ desk_limits }
    {
        Limits {
            bytes: Desk::MAX_BYTES,
            line: Desk::MAX_LINE_FIELDS,
            fields: Desk::MAX_FIELDS,
            depth: Desk::MAX_DEPTH,
            parameters: Desk::MAX_PARAMETERS,
            rows: Desk::MAX_ROWS,
            span: Desk::MAX_SPAN,
            states: Desk::MAX_STATES,
        }
    }

    // A new desk.
    pub fn empty() -> Desk
        ensures { result ≡ empty_desk }
    {
        Desk {
            lines: Lines::none(),
            counts: Counts::default(),
            plan: [0u16; walk::PLAN_LENGTH],
            next: 0,
            phase: Phase::Empty,
        }
    }

    // Takes a text and opens the desk.
    pub fn load(self, text: &[u8]) -> AfterLoad
        ensures value { result ≡ load_of self text.now }
        ensures answer_value { done_number result.answer ≡ load_number self.phase text.now }
    {
        let phase = self.phase;
        let number = answers::load_number(phase);
        if number == 0 {
            return self.load_empty(text);
        }
        AfterLoad {
            answer: Done::TurnedDown(number),
            desk: self,
        }
    }

    // Examines the next n states, or those that remain.
    pub fn advance(self, n: u64) -> AfterAdvance
        ensures value { result ≡ advance_of self n }
        ensures answer_value { refusal_number result.answer ≡ advance_number self.phase n }
        ensures answer_value_2 { count_said result.answer ≡ advance_count self n }
    {
        let phase = self.phase;
        let number = answers::advance_number(phase, n);
        if number == 0 {
            return self.examine_open(n);
        }
        AfterAdvance {
            answer: Advance::TurnedDown(number),
            desk: self,
        }
    }

    // Tells the report's numbers; the desk stays as it is.
    pub fn verdict(self) -> AfterVerdict
        ensures value { result ≡ tell_of self }
        ensures answer_value { verdict_numbers result.answer ≡ verdict_numbers_by self.phase }
    {
        let phase = self.phase;
        AfterVerdict {
            answer: answers::verdict_of(phase),
            desk: self,
        }
    }

    // Makes a measure in the slice: the length of the longest run of marked steps from each state where the invariant holds, or a loop. The
    // desk stays as it is.
    pub fn measure(self, slice: &mut [u16]) -> AfterMeasure
        ensures desk_value { result.desk ≡ self }
        ensures measure_of { MeasureOf self slice.old slice.new result.answer }
        ensures measure_number { MeasureNumber self (length slice.old) (measured_number result.answer) }
    {
        let phase = self.phase;
        let number = answers::empty_number(phase);
        if number != 0 {
            return AfterMeasure {
                answer: Measured::TurnedDown(number),
                desk: self,
            };
        }
        AfterMeasure {
            answer: measure::measure(
                Lent {
                    fields: &self.lines.fields,
                    starts: &self.lines.starts,
                },
                self.counts,
                slice,
            ),
            desk: self,
        }
    }

    // Empties the desk, open or decided.
    pub fn drop(self) -> AfterDrop
        ensures value { result ≡ drop_of self }
        ensures answer_value { done_number result.answer ≡ empty_number self.phase }
    {
        let phase = self.phase;
        let number = answers::empty_number(phase);
        if number == 0 {
            return AfterDrop {
                answer: Done::Done,
                desk: Desk::empty(),
            };
        }
        AfterDrop {
            answer: Done::TurnedDown(number),
            desk: self,
        }
    }

    // Load on an empty desk.
    fn load_empty(self, text: &[u8]) -> AfterLoad
        ensures { result ≡ load_empty self (loaded_of text.now) }
    {
        match loader::load(text) {
            Ok(loaded) => {
                let lines = loaded.lines;
                let counts = loaded.counts;
                let plan = walk::plan(
                    Lent {
                        fields: &lines.fields,
                        starts: &lines.starts,
                    },
                    counts,
                );
                AfterLoad {
                    answer: Done::Done,
                    desk: Desk {
                        lines,
                        counts,
                        plan,
                        next: 0,
                        phase: Phase::Open,
                    },
                }
            }
            Err(fault) => AfterLoad {
                answer: Done::TurnedDown(fault.number()),
                desk: self,
            },
        }
    }

    // Advance on an open desk.
    fn examine_open(self, n: u64) -> AfterAdvance
        ensures { result ≡ examine_open self n }
    {
        let next = self.next;
        let examined = examining::examine(
            Lent {
                fields: &self.lines.fields,
                starts: &self.lines.starts,
            },
            self.counts,
            &self.plan,
            next,
            n,
        );
        let phase = examined.phase;
        let answer = answers::advance_of(phase, examined.count);
        AfterAdvance {
            answer,
            desk: Desk {
                lines: self.lines,
                counts: self.counts,
                plan: self.plan,
                next: examined.next,
                phase,
            },
        }
    }
}
