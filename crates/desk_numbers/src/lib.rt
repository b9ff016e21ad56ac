// A desk's counts, phase and answers as numbers, as C holds them and is told of them. Any five numbers are some phase and some counts.
#![tactic(auto)]

ghost use Rattle.std.specs.Prelude.{◌≡◌};
ghost use Rattle.answers.specs.Answers.{done_number};
ghost use Rattle.verdicts.specs.Report.{accepted_number};
ghost use Rattle.desk_numbers.specs.Numbers.{counts_in, phase_told, phase_by, phase_in, advance_result, advance_told};

use answers::{Advance, Done, Phase};
use design::Counts;
use verdicts::{Acceptance, Failure};

// The counts of lines of kinds 1 to 4 and 8; a phase with what failed.
pub type Tally = [usize; 5];

pub type Standing = [u16; 5];

// What an advance returns: the report's verdicts, and one for a desk that is open.
const ACCEPTED: u32 = 0;

const FAILED: u32 = 1;

const TURNED_DOWN: u32 = 2;

const ACCEPTED_AFTER_INTERNAL: u32 = 3;

const OPEN: u32 = 4;

// ---- counts and phases

pub fn counts_in(counts: Tally) -> Counts
    ensures { result ≡ counts_in counts }
{
    Counts {
        kind1: counts[0],
        kind2: counts[1],
        kind3: counts[2],
        kind4: counts[3],
        kind8: counts[4],
    }
}

// Any other number than those of the phases stands for an empty desk.
pub fn phase_in(phase: Standing) -> Phase
    ensures { result ≡ phase_in phase }
{
    let failure = Failure {
        criterion: phase[1],
        state: phase[2],
        row: phase[3],
        sum: phase[4],
    };
    phase_by(phase[0], failure)
}

fn phase_by(number: u16, failure: Failure) -> Phase
    ensures { result ≡ phase_by number failure }
{
    match number {
        1 => Phase::Open,
        2 => Phase::Accepted(Acceptance::AsIs),
        3 => Phase::Accepted(Acceptance::AfterInternal),
        4 => Phase::Failed(failure),
        _ => Phase::Empty,
    }
}

pub fn phase_told(phase: Phase) -> Standing
    ensures { result ≡ phase_told phase }
{
    match phase {
        Phase::Empty => [0, 0, 0, 0, 0],
        Phase::Open => [1, 0, 0, 0, 0],
        Phase::Accepted(how) => match how {
            Acceptance::AsIs => [2, 0, 0, 0, 0],
            Acceptance::AfterInternal => [3, 0, 0, 0, 0],
        },
        Phase::Failed(f) => [4, f.criterion, f.state, f.row, f.sum],
    }
}

// ---- answers

pub fn done_number(answer: Done) -> u32
    ensures { result ≡ done_number answer }
{
    match answer {
        Done::Done => 0,
        Done::TurnedDown(number) => number as u32,
    }
}

pub fn advance_result(answer: Advance) -> u32
    ensures { result ≡ advance_result answer }
{
    match answer {
        Advance::Open(_) => OPEN,
        Advance::Accepted(how, _) => accepted_number(how),
        Advance::Failed(_) => FAILED,
        Advance::TurnedDown(_) => TURNED_DOWN,
    }
}

fn accepted_number(how: Acceptance) -> u32
    ensures { result ≡ accepted_number how }
{
    match how {
        Acceptance::AsIs => ACCEPTED,
        Acceptance::AfterInternal => ACCEPTED_AFTER_INTERNAL,
    }
}

// The states that were examined, or the number by which the advance is turned down.
pub fn advance_told(answer: Advance) -> usize
    ensures { result ≡ advance_told answer }
{
    match answer {
        Advance::Open(count) => count,
        Advance::Accepted(_, count) => count,
        Advance::Failed(count) => count,
        Advance::TurnedDown(number) => number as usize,
    }
}
