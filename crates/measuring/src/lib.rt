// A measure for a design text in one call, for C (02, order 4): the text is loaded, and the measure is made as on a desk. What is answered and
// written is in specs/Measured, for every text and every slice.
#![tactic(auto)]

ghost use Rattle.std.specs.Prelude.{◌≡◌};
ghost use Rattle.measuring.specs.Measured.{MeasureText, Tells, result_of, number_told};

use answers::Measured;
use layout::Lent;

// What is returned to C.
const FILLED: u32 = 0;

const LOOP: u32 = 1;

const TURNED_DOWN: u32 = 2;

// For C: makes a measure for a text in the slice. Returns 0 and tells 0; or, for a loop, 1 and tells a state on it; turned down, it returns 2
// and tells the number.
pub fn measure_design(text: &[u8], slice: &mut [u16], number: &mut u32) -> u32
    ensures { Tells text.now slice.old slice.new result number.new }
{
    let measured = measure_text(text, slice);
    *number = number_told(measured);
    result_of(measured)
}

fn measure_text(text: &[u8], slice: &mut [u16]) -> Measured
    ensures { MeasureText text.now slice.old slice.new result }
{
    match loader::load(text) {
        Ok(loaded) => {
            let lines = Lent {
                fields: &loaded.lines.fields,
                starts: &loaded.lines.starts,
            };
            measure::measure(lines, loaded.counts, slice)
        }
        Err(fault) => Measured::TurnedDown(fault.number()),
    }
}

fn number_told(measured: Measured) -> u32
    ensures { result ≡ number_told measured }
{
    match measured {
        Measured::Filled => 0,
        Measured::Loop(state) => state as u32,
        Measured::TurnedDown(number) => number as u32,
    }
}

fn result_of(measured: Measured) -> u32
    ensures { result ≡ result_of measured }
{
    match measured {
        Measured::Filled => FILLED,
        Measured::Loop(_) => LOOP,
        Measured::TurnedDown(_) => TURNED_DOWN,
    }
}
