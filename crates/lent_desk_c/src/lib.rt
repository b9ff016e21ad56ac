// The desk in memory that the caller lends, for C programs: the crate lent_desk's functions as symbols of a static library, with what they
// promise.
#![tactic(auto)]

ghost use Rattle.std.specs.Prelude.{◌≡◌};
ghost use Rattle.answers.specs.Answers.{done_number, verdict_numbers_by};
ghost use Rattle.desk.specs.Desk.{empty_desk, load_of, advance_of, drop_of};
ghost use Rattle.desk_numbers.specs.Numbers.{phase_in, advance_result, advance_told, numbers_told};
ghost use Rattle.lent_desk.specs.Lent.{desk_in, Keeps};

use desk_numbers::{Standing, Tally};

type Plan = [u16; walk::PLAN_LENGTH];

// A new desk.
#[unsafe(no_mangle)]
pub extern "C" fn new_desk(
    fields: &mut limits::Fields,
    starts: &mut limits::Starts,
    counts: &mut Tally,
    plan: &mut Plan,
    next: &mut usize,
    phase: &mut Standing,
)
    ensures { Keeps empty_desk fields.new starts.new counts.new plan.new next.new phase.new }
{
    lent_desk::new_desk(fields, starts, counts, plan, next, phase);
}

// Loads a text. Returns 0, or the number by which the load is turned down.
#[unsafe(no_mangle)]
pub extern "C" fn load_desk(
    fields: &mut limits::Fields,
    starts: &mut limits::Starts,
    counts: &mut Tally,
    plan: &mut Plan,
    next: &mut usize,
    phase: &mut Standing,
    text: &[u8],
) -> u32
    ensures value { result ≡ done_number (load_of (desk_in fields.old starts.old counts.old plan.old next.old phase.old) text.now).answer }
    ensures keeps { Keeps (load_of (desk_in fields.old starts.old counts.old plan.old next.old phase.old) text.now).desk fields.new starts.new counts.new plan.new next.new phase.new }
{
    lent_desk::load_desk(fields, starts, counts, plan, next, phase, text)
}

// Examines the next n states, or those that remain. Returns 4 while the desk is open, the report's verdict when it is decided, and
// tells how many states were examined; or returns 2 and tells the number by which the advance is turned down.
#[unsafe(no_mangle)]
pub extern "C" fn advance_desk(
    fields: &mut limits::Fields,
    starts: &mut limits::Starts,
    counts: &mut Tally,
    plan: &mut Plan,
    next: &mut usize,
    phase: &mut Standing,
    n: u64,
    number: &mut usize,
) -> u32
    ensures value { result ≡ advance_result (advance_of (desk_in fields.old starts.old counts.old plan.old next.old phase.old) n).answer }
    ensures number_after { number.new ≡ advance_told (advance_of (desk_in fields.old starts.old counts.old plan.old next.old phase.old) n).answer }
    ensures keeps { Keeps (advance_of (desk_in fields.old starts.old counts.old plan.old next.old phase.old) n).desk fields.new starts.new counts.new plan.new next.new phase.new }
{
    lent_desk::advance_desk(fields, starts, counts, plan, next, phase, n, number)
}

// The report's numbers; or the number by which the verdict is turned down, and zeros. The desk stays as it is.
#[unsafe(no_mangle)]
pub extern "C" fn tell_desk(phase: &Standing, numbers: &mut Standing)
    ensures { numbers.new ≡ numbers_told (verdict_numbers_by (phase_in phase.now)) }
{
    lent_desk::tell_desk(phase, numbers);
}

// Empties the desk, open or decided. Returns 0, or the number by which the drop is turned down.
#[unsafe(no_mangle)]
pub extern "C" fn drop_desk(
    fields: &mut limits::Fields,
    starts: &mut limits::Starts,
    counts: &mut Tally,
    plan: &mut Plan,
    next: &mut usize,
    phase: &mut Standing,
) -> u32
    ensures value { result ≡ done_number (drop_of (desk_in fields.old starts.old counts.old plan.old next.old phase.old)).answer }
    ensures keeps { Keeps (drop_of (desk_in fields.old starts.old counts.old plan.old next.old phase.old)).desk fields.new starts.new counts.new plan.new next.new phase.new }
{
    lent_desk::drop_desk(fields, starts, counts, plan, next, phase)
}
