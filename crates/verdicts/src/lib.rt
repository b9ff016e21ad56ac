// The words of a verdict, for definitions and for code: a place of failure at a state, a failure, what a walk comes to, how a design is
// accepted, the report's numbers, and why a text or a call is turned down.

#![tactic(auto)]

ghost use Rattle.std.specs.Prelude.{◌≡◌};
ghost use Rattle.verdicts.specs.Refusals.{fault_number, number_of};
ghost use Rattle.verdicts.specs.declared.Refusal.TheVariants.{Text};

// Criterion, row and sum value.
#[derive(Clone, Copy)]
pub struct Place {
    pub criterion: u16,
    pub row: u16,
    pub sum: u16,
}

// The same at the state with a number.
#[derive(Clone, Copy)]
pub struct Failure {
    pub criterion: u16,
    pub state: u16,
    pub row: u16,
    pub sum: u16,
}

// What an examination comes to.
#[derive(Clone, Copy)]
pub enum Outcome {
    Pass,
    Fail(Failure),
}

// What came of a walk, and how many states were examined, the failing one included.
#[derive(Clone, Copy)]
pub struct Walked {
    pub outcome: Outcome,
    pub count: usize,
}

// How a design is accepted: equal as it is, or after a first internal step.
#[derive(Clone, Copy)]
pub enum Acceptance {
    AsIs,
    AfterInternal,
}

// The report's five numbers; those that are not used are 0.
#[derive(Clone, Copy)]
pub struct Report {
    // 0 accepted as it is, 1 failed, 2 turned down, 3 accepted after a first internal step
    pub verdict: u16,
    // the criterion that failed, or the number by which a text is turned down
    pub number: u16,
    pub state: u16,
    pub row: u16,
    pub sum: u16,
}

// The faults for which a text is turned down, the lowest first; what each is, is in design/specs/Faults.
#[derive(Clone, Copy, PartialEq, Eq, Debug)]
pub enum Fault {
    // too many bytes
    TooLong,
    // a line that isn't whole fields
    Columns,
    // too many fields
    Fields,
    // a line's kind, or how many lines or fields there are of it
    Layout,
    // a size, an initial value, a span or the number of states
    Bounds,
    // a line that isn't the terms of its kind
    Terms,
    // the actions and data of rows
    Actions,
}

impl Fault {
    // The number by which the text is turned down.
    pub fn number(self) -> u16
        ensures { result ≡ fault_number self }
    {
        match self {
            Fault::TooLong => 1,
            Fault::Columns => 2,
            Fault::Fields => 3,
            Fault::Layout => 4,
            Fault::Bounds => 5,
            Fault::Terms => 6,
            Fault::Actions => 7,
        }
    }
}

// Why a call is turned down.
#[derive(Clone, Copy, PartialEq, Eq, Debug)]
pub enum Refusal {
    // the text has this fault, and no lower one
    Text(Fault),
    // an advance by 0 states
    NoStates,
    // an empty desk, for anything but a load
    Empty,
    // a load on a desk that isn't empty
    NotEmpty,
    // a verdict while the check is open
    Open,
    // an advance when the check is decided
    Decided,
    // a line of marks, to be left out, with a formula other than `10`
    NotAllTrue,
    // a result longer than the buffer, or than a text may be
    NoRoom,
    // a slice with fewer places than there are states
    FewPlaces,
    // no measure can be made
    NotMeasurable,
}

impl Refusal {
    // The number by which the call is turned down.
    pub fn number(self) -> u16
        ensures { result ≡ number_of self }
    {
        match self {
            Refusal::Text(fault) => fault.number(),
            Refusal::NoStates => 8,
            Refusal::Empty => 11,
            Refusal::NotEmpty => 12,
            Refusal::Open => 13,
            Refusal::Decided => 14,
            Refusal::NotAllTrue => 15,
            Refusal::NoRoom => 16,
            Refusal::FewPlaces => 17,
            Refusal::NotMeasurable => 18,
        }
    }
}

impl From<Fault> for Refusal {
    ghost from_gives = { λ fault refusal. refusal ≡ Text fault };

    fn from(fault: Fault) -> Refusal {
        Refusal::Text(fault)
    }
}
