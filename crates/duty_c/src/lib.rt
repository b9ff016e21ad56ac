// Whether a text has the specification of another, for C programs: the crate duty's function as a symbol of a static library, with what it
// promises.
#![tactic(auto)]

ghost use Rattle.std.specs.Prelude.{◌≡◌};
ghost use Rattle.duty.specs.Duty.{duty_told};

// Whether the text's specification is the duty's, or which of the two is no design text.
#[unsafe(no_mangle)]
pub extern "C" fn same_duty(text: &[u8], duty: &[u8]) -> u32
    ensures { result ≡ duty_told text.now duty.now }
{
    duty::same_duty(text, duty)
}
