// The two writers for C programs: the crate conversion's functions as symbols of a static library, with what they promise.
#![tactic(auto)]

ghost use Rattle.std.specs.Prelude.{◌≡◌};
ghost use Rattle.conversion.specs.Result.{there, back};
ghost use Rattle.conversion.specs.Answer.{answer_of, buffer_written};

// Writes a text with a line of marks, one that has it as it is. Returns the result's length and tells 0; turned down, it returns 0 and tells
// the number.
#[unsafe(no_mangle)]
pub extern "C" fn mark_design(text: &[u8], buffer: &mut [u8], number: &mut u32) -> usize
    ensures value { result ≡ (answer_of there text.now buffer.old).length }
    ensures buffer_after { buffer.new ≡ buffer_written there text.now buffer.old }
    ensures number_after { number.new ≡ (answer_of there text.now buffer.old).number }
{
    conversion::mark_design(text, buffer, number)
}

// Writes a text without its line of marks, each formula of which has to be `10`; returns and tells the same.
#[unsafe(no_mangle)]
pub extern "C" fn unmark_design(text: &[u8], buffer: &mut [u8], number: &mut u32) -> usize
    ensures value { result ≡ (answer_of back text.now buffer.old).length }
    ensures buffer_after { buffer.new ≡ buffer_written back text.now buffer.old }
    ensures number_after { number.new ≡ (answer_of back text.now buffer.old).number }
{
    conversion::unmark_design(text, buffer, number)
}
