// What is known of a row before a walk, and how a plan keeps it: four numbers for each row, and behind them the risks, what could leave a
// row without a value, each told by a number as in the crate divisors.
#![tactic(auto)]

ghost use Rattle.std.specs.Prelude.{◌≡◌, ◌+◌, ◌*◌, ◌/◌, ◌%◌, ◌<◌};
ghost use Rattle.row_plan.specs.RowPlan.{flags_of, pack_of, packed_of, row_plan_at, risk_at, unsure_at};

// What a plan has of a row. It is kept in the plan's numbers, which C lends: so 0 says that there is no partner, and no mark.
#[derive(Clone, Copy)]
pub struct RowPlan {
    // the number of its partner, 0 if there is none
    pub partner: u16,
    // how many sum values need a look
    pub looks: u16,
    pub internal: bool,
    // whether its condition does not read the sum value
    pub free: bool,
    // how many conjuncts in front of its condition do not
    pub front: u16,
    pub mark: Mark,
}

// The mark of a row: its place in the line of marks, and whether it does not read the sum value. At place 0 stands the line's kind: it says
// that there is no mark, and all steps of the row are marked.
#[derive(Clone, Copy)]
pub struct Mark {
    pub at: u16,
    pub free: bool,
}

// The numbers: partner and flags, looks, front, mark.
pub const NUMBERS: usize = 4;

// More than any row has for its number.
const PARTNERS: u16 = 64;

// A plan has them for each row of the implementation that there may be, and then for each of the specification.
pub const ROWS: usize = limits::MAX_ROWS;

// Behind them it has a risk for each of these rows, and one of invariant, mapping and measure together, each as two numbers, the lower one
// first; and a flag: 0 where all risks are 0.
pub const FIRST_RISK: usize = 2 * ROWS * NUMBERS;

pub const KINDS_RISK: usize = 2 * ROWS;

pub const UNSURE: usize = FIRST_RISK + 2 * (KINDS_RISK + 1);

pub const LENGTH: usize = UNSURE + 1;

// By this, a risk is two numbers.
const UPPER: u32 = 65536;

// Three flags as a number: its last three binary digits.
fn flags(first: bool, second: bool, third: bool) -> u16
    ensures { result ≡ flags_of first second third }
{
    u16::from(first) + 2 * u16::from(second) + 4 * u16::from(third)
}

// A partner and flags as one number.
fn pack(partner: u16, flags: u16) -> u16
    requires { flags < 8 }
    ensures { result ≡ pack_of partner flags }
{
    partner % PARTNERS + PARTNERS * flags
}

// Those of a row's plan: the first of its four numbers.
pub fn packed(row: RowPlan) -> u16
    ensures { result ≡ packed_of row }
{
    pack(row.partner, flags(row.free, row.mark.free, row.internal))
}

// Number i of the rows' plans.
pub fn planned(plan: &[u16; LENGTH], i: usize) -> RowPlan
    requires { i < 64 }
    ensures { result ≡ row_plan_at plan.now i }
{
    let at = NUMBERS * i;
    let flags = plan[at] / PARTNERS;
    RowPlan {
        partner: plan[at] % PARTNERS,
        looks: plan[at + 1],
        internal: 4 <= flags,
        free: flags % 2 == 1,
        front: plan[at + 2],
        mark: Mark {
            at: plan[at + 3],
            free: flags / 2 % 2 == 1,
        },
    }
}

// How many conjuncts in front of the row's condition do not read the sum value, by number i of a plan: all that a row which they rule out
// is asked for.
pub fn front(plan: &[u16; LENGTH], i: usize) -> u16
    requires { i < 64 }
    ensures { result ≡ (row_plan_at plan.now i).front }
{
    plan[NUMBERS * i + 2]
}

// The two numbers of a risk, and the risk by them.
pub fn lower(risk: u32) -> u16
    ensures { result ≡ risk % 65536 }
{
    (risk % UPPER) as u16
}

pub fn upper(risk: u32) -> u16
    ensures { result ≡ risk / 65536 }
{
    (risk / UPPER) as u16
}

fn from_two(lower: u16, upper: u16) -> u32
    ensures { result ≡ lower + 65536 * upper }
{
    lower as u32 + UPPER * upper as u32
}

// Number i of the risks.
pub fn risk(plan: &[u16; LENGTH], i: usize) -> u32
    requires { i < 65 }
    ensures { result ≡ risk_at plan.now i }
{
    let at = FIRST_RISK + 2 * i;
    from_two(plan[at], plan[at + 1])
}

// The flag.
pub fn unsure(plan: &[u16; LENGTH]) -> u16
    ensures { result ≡ unsure_at plan.now }
{
    plan[UNSURE]
}
