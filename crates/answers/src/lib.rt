// What a desk call answers, by the phase of its desk, or the phase that it leaves it in; the crate desk has the arrays. The paper's numbers
// for each answer are in specs/Answers (01, "The desk", "Turned down by the input" 8, "Turned down by the state"; 02, order 6).
#![tactic(auto)]

ghost use Rattle.std.specs.Prelude.{◌≡◌};
ghost use Rattle.verdicts.specs.Report.{report, accepted_number};
ghost use Rattle.answers.specs.Answers.{verdict_numbers, load_number_by, advance_number, empty_number, told_by, advanced_to};

use verdicts::{Acceptance, Failure, Report};

// What a desk is: empty, open or decided.
#[derive(Clone, Copy)]
pub enum Phase {
    Empty,
    Open,
    Accepted(Acceptance),
    Failed(Failure),
}

// The answer of a load or a drop: done, or the number by which it is turned down.
#[derive(Clone, Copy)]
pub enum Done {
    Done,
    TurnedDown(u16),
}

// The answer of an advance, with how many states it examined; or the number by which it is turned down.
#[derive(Clone, Copy)]
pub enum Advance {
    Open(usize),
    Accepted(Acceptance, usize),
    Failed(usize),
    TurnedDown(u16),
}

// The answer of a verdict; or the number by which it is turned down.
#[derive(Clone, Copy)]
pub enum Verdict {
    Accepted(Acceptance),
    Failed(Failure),
    TurnedDown(u16),
}

// The answer of a measure: the slice holds it; or there is none, as this state is on a loop; or the number by which it is turned down.
#[derive(Clone, Copy)]
pub enum Measured {
    Filled,
    Loop(u16),
    TurnedDown(u16),
}

// The number by which a load is turned down before its text is looked at; 0 if it isn't.
pub fn load_number(phase: Phase) -> u16
    ensures { result ≡ load_number_by phase }
{
    match phase {
        Phase::Empty => 0,
        Phase::Open => 12,
        Phase::Accepted(_) => 12,
        Phase::Failed(_) => 12,
    }
}

// The number by which an advance by n states is turned down; 0 if it isn't.
pub fn advance_number(phase: Phase, n: u64) -> u16
    ensures { result ≡ advance_number phase n }
{
    match phase {
        Phase::Empty => 11,
        Phase::Open => { if n == 0 { 8 } else { 0 } }
        Phase::Accepted(_) => 14,
        Phase::Failed(_) => 14,
    }
}

// The number by which a call is turned down that only asks for a desk that isn't empty, a drop or a measure; 0 if it isn't.
pub fn empty_number(phase: Phase) -> u16
    ensures { result ≡ empty_number phase }
{
    match phase {
        Phase::Empty => 11,
        Phase::Open => 0,
        Phase::Accepted(_) => 0,
        Phase::Failed(_) => 0,
    }
}

// The verdict that a desk in a phase tells.
pub fn verdict_of(phase: Phase) -> Verdict
    ensures { result ≡ told_by phase }
{
    match phase {
        Phase::Empty => Verdict::TurnedDown(11),
        Phase::Open => Verdict::TurnedDown(13),
        Phase::Accepted(how) => Verdict::Accepted(how),
        Phase::Failed(failure) => Verdict::Failed(failure),
    }
}

// The answer of an advance that is done: it examined count states, and leaves the desk in this phase. None leaves an empty desk, where an
// advance is turned down.
pub fn advance_of(phase: Phase, count: usize) -> Advance
    ensures { result ≡ advanced_to phase count }
{
    match phase {
        Phase::Empty => Advance::TurnedDown(11),
        Phase::Open => Advance::Open(count),
        Phase::Accepted(how) => Advance::Accepted(how, count),
        Phase::Failed(_) => Advance::Failed(count),
    }
}

// The numbers of a verdict: those of the report; a verdict that is turned down has its number, and 0 else.
pub fn verdict_numbers(verdict: Verdict) -> Report
    ensures { result ≡ verdict_numbers verdict }
{
    match verdict {
        Verdict::Accepted(how) => report_of(accepted_number(how), 0, 0, 0, 0),
        Verdict::Failed(f) => report_of(1, f.criterion, f.state, f.row, f.sum),
        Verdict::TurnedDown(number) => report_of(number, 0, 0, 0, 0),
    }
}

// The report's verdict where a design is accepted.
fn accepted_number(how: Acceptance) -> u16
    ensures { result ≡ accepted_number how }
{
    match how {
        Acceptance::AsIs => 0,
        Acceptance::AfterInternal => 3,
    }
}

fn report_of(verdict: u16, number: u16, state: u16, row: u16, sum: u16) -> Report
    ensures { result ≡ report verdict number state row sum }
{
    Report {
        verdict,
        number,
        state,
        row,
        sum,
    }
}
