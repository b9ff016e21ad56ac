// The desk for C programs, each time from a new one: a load, and a load with advances to the end. The benchmark in bench/ links this.
#![tactic(auto)]

ghost use Rattle.std.specs.Prelude.{◌≡◌};
ghost use Rattle.loader.specs.Load.{fault_of};
ghost use Rattle.desk.specs.Desk.{empty_desk, load_of};
ghost use Rattle.desk_c.specs.Advances.{is_open, advances_till};

use answers::{Advance, Done};
use desk::Desk;

// The most advances that are made: as many as there can be states.
const MOST: u64 = limits::MAX_STATES as u64;

// Loads a text: 0, or the number by which it is turned down.
#[unsafe(no_mangle)]
pub extern "C" fn bench_load(text: &[u8]) -> u32
    ensures { result ≡ fault_of text.now }
{
    match Desk::empty().load(text).answer {
        Done::Done => 0,
        Done::TurnedDown(number) => u32::from(number),
    }
}

// Loads a text and advances by n while the desk is open: how many advances that takes, the one that ends it included, so 1 where the text is
// turned down or n is 0.
#[unsafe(no_mangle)]
pub extern "C" fn bench_advances(text: &[u8], n: u64) -> u64
    ensures { result ≡ advances_till 65536 (load_of empty_desk text.now).desk n }
{
    let mut desk = Desk::empty().load(text).desk;
    for made in 1..=MOST {
        let advanced = desk.advance(n);
        if !stays_open(advanced.answer) {
            return made;
        }
        desk = advanced.desk;
    }
    MOST
}

fn stays_open(answer: Advance) -> bool
    ensures { result ≡ is_open answer }
{
    matches!(answer, Advance::Open(_))
}
