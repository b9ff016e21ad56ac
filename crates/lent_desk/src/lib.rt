// The desk for C, in memory that the caller lends: made new, loaded, advanced, asked for its verdict, dropped. Each function reads the desk
// that stands there, makes the desk's own call, and writes the next desk back. Any memory is some desk (specs/Lent), and what a call does to
// it is what the crate desk promises of that desk.
#![tactic(auto)]

ghost use Rattle.std.specs.Prelude.{◌≡◌};
ghost use Rattle.answers.specs.Answers.{done_number, verdict_numbers_by};
ghost use Rattle.desk.specs.Desk.{empty_desk, load_of, advance_of, drop_of};
ghost use Rattle.desk_numbers.specs.Numbers.{phase_in, advance_result, advance_told, numbers_told};
ghost use Rattle.lent_desk.specs.Lent.{desk_in, Keeps};

use desk::Desk;
use desk_numbers::{Standing, Tally};
use layout::Lines;

type Plan = [u16; walk::PLAN_LENGTH];

// ---- memory

// The desk that stands there.
fn desk_in(
    fields: limits::Fields,
    starts: limits::Starts,
    counts: Tally,
    plan: Plan,
    next: usize,
    phase: Standing,
) -> Desk
    ensures { result ≡ desk_in fields starts counts plan next phase }
{
    Desk {
        lines: Lines { fields, starts },
        counts: desk_numbers::counts_in(counts),
        plan,
        next,
        phase: desk_numbers::phase_in(phase),
    }
}

// Writes a desk there.
fn put(
    desk: Desk,
    fields: &mut limits::Fields,
    starts: &mut limits::Starts,
    counts: &mut Tally,
    plan: &mut Plan,
    next: &mut usize,
    phase: &mut Standing,
)
    ensures { Keeps desk fields.new starts.new counts.new plan.new next.new phase.new }
{
    let held = desk.counts;
    let held_fields = desk.lines.fields;
    let held_starts = desk.lines.starts;
    let held_plan = desk.plan;
    *fields = held_fields;
    *starts = held_starts;
    *counts = [held.kind1, held.kind2, held.kind3, held.kind4, held.kind8];
    *plan = held_plan;
    *next = desk.next;
    *phase = desk_numbers::phase_told(desk.phase);
}

// ---- calls

// For C: a new desk.
pub fn new_desk(
    fields: &mut limits::Fields,
    starts: &mut limits::Starts,
    counts: &mut Tally,
    plan: &mut Plan,
    next: &mut usize,
    phase: &mut Standing,
)
    ensures { Keeps empty_desk fields.new starts.new counts.new plan.new next.new phase.new }
{
    put(Desk::empty(), fields, starts, counts, plan, next, phase);
}

// For C: loads a text. Returns 0, or the number by which the load is turned down.
pub fn load_desk(
    fields: &mut limits::Fields,
    starts: &mut limits::Starts,
    counts: &mut Tally,
    plan: &mut Plan,
    next: &mut usize,
    phase: &mut Standing,
    text: &[u8],
) -> u32
    ensures value { result ≡ done_number (load_of (desk_in fields.old starts.old counts.old plan.old next.old phase.old) text.now).answer }
    ensures keeps { Keeps (load_of (desk_in fields.old starts.old counts.old plan.old next.old phase.old) text.now).desk fields.new starts.new counts.new plan.new next.new phase.new }
{
    let desk = desk_in(*fields, *starts, *counts, *plan, *next, *phase);
    let loaded = desk.load(text);
    let answer = loaded.answer;
    put(loaded.desk, fields, starts, counts, plan, next, phase);
    desk_numbers::done_number(answer)
}

// For C: examines the next n states, or those that remain. Returns 4 while the desk is open, the report's verdict when it is decided, and
// tells how many states were examined; or returns 2 and tells the number by which the advance is turned down.
pub fn advance_desk(
    fields: &mut limits::Fields,
    starts: &mut limits::Starts,
    counts: &mut Tally,
    plan: &mut Plan,
    next: &mut usize,
    phase: &mut Standing,
    n: u64,
    number: &mut usize,
) -> u32
    ensures value { result ≡ advance_result (advance_of (desk_in fields.old starts.old counts.old plan.old next.old phase.old) n).answer }
    ensures number_after { number.new ≡ advance_told (advance_of (desk_in fields.old starts.old counts.old plan.old next.old phase.old) n).answer }
    ensures keeps { Keeps (advance_of (desk_in fields.old starts.old counts.old plan.old next.old phase.old) n).desk fields.new starts.new counts.new plan.new next.new phase.new }
{
    let desk = desk_in(*fields, *starts, *counts, *plan, *next, *phase);
    let advanced = desk.advance(n);
    let answer = advanced.answer;
    put(advanced.desk, fields, starts, counts, plan, next, phase);
    *number = desk_numbers::advance_told(answer);
    desk_numbers::advance_result(answer)
}

// For C: the report's numbers; or the number by which the verdict is turned down, and zeros. The desk stays as it is.
pub fn tell_desk(phase: &Standing, numbers: &mut Standing)
    ensures { numbers.new ≡ numbers_told (verdict_numbers_by (phase_in phase.now)) }
{
    let told = answers::verdict_numbers(answers::verdict_of(desk_numbers::phase_in(*phase)));
    *numbers = [told.verdict, told.number, told.state, told.row, told.sum];
}

// For C: empties the desk, open or decided. Returns 0, or the number by which the drop is turned down.
pub fn drop_desk(
    fields: &mut limits::Fields,
    starts: &mut limits::Starts,
    counts: &mut Tally,
    plan: &mut Plan,
    next: &mut usize,
    phase: &mut Standing,
) -> u32
    ensures value { result ≡ done_number (drop_of (desk_in fields.old starts.old counts.old plan.old next.old phase.old)).answer }
    ensures keeps { Keeps (drop_of (desk_in fields.old starts.old counts.old plan.old next.old phase.old)).desk fields.new starts.new counts.new plan.new next.new phase.new }
{
    let desk = desk_in(*fields, *starts, *counts, *plan, *next, *phase);
    let dropped = desk.drop();
    let answer = dropped.answer;
    put(dropped.desk, fields, starts, counts, plan, next, phase);
    desk_numbers::done_number(answer)
}
