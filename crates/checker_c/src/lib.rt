// The one-call check for C programs: the crate checker's function as a symbol of a static library, with what it promises.
#![tactic(auto)]

ghost use Rattle.std.specs.Prelude.{◌≡◌};
ghost use Rattle.checker.specs.OneCall.{answer_of, buffer_written};

// Checks a text and writes the report: 0 accepted as it is, 1 failed, 2 turned down, 3 accepted after a first internal step; 9 for a report
// buffer under 31 bytes, which is not written.
#[unsafe(no_mangle)]
pub extern "C" fn check_design(text: &[u8], report: &mut [u8]) -> u32
    ensures value { result ≡ answer_of text.now report.old }
    ensures report_after { report.new ≡ buffer_written text.now report.old }
{
    checker::check_design(text, report)
}
