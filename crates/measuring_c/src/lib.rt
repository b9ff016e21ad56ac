// A measure in one call for C programs: the crate measuring's function as a symbol of a static library, with what it promises.
#![tactic(auto)]

ghost use Rattle.measuring.specs.Measured.{Tells};

// Makes a measure for a text in the slice. Returns 0 and tells 0; or, for a loop, 1 and tells a state on it; turned down, it returns 2 and
// tells the number.
#[unsafe(no_mangle)]
pub extern "C" fn measure_design(text: &[u8], slice: &mut [u16], number: &mut u32) -> u32
    ensures { Tells text.now slice.old slice.new result number.new }
{
    measuring::measure_design(text, slice, number)
}
