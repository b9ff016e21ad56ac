// The one-call check: a text is loaded, all its states are examined and the report is written (01, "The desk"). What it answers and
// writes is in specs/OneCall, one equation for every text and every buffer. There is no desk in it, so that no arrays move; that a desk
// comes to the same is claim 2.
#![tactic(auto)]

ghost use Rattle.std.specs.Prelude.{◌≡◌};
ghost use Rattle.checker.specs.OneCall.{refused_report, judged_of, answer_of, buffer_written};

use layout::Lent;
use verdicts::Report;

// Checks a text and writes the report: 0 accepted as it is, 1 failed, 2 turned down, 3 accepted after a first internal step; 9 for a report
// buffer under 31 bytes, which is not written.
pub fn check_design(text: &[u8], report: &mut [u8]) -> u32
    ensures value { result ≡ answer_of text.now report.old }
    ensures report_after { report.new ≡ buffer_written text.now report.old }
{
    if report.len() < writer::REPORT_BYTES {
        return 9;
    }
    let judged = judge(text);
    writer::put_report(report, judged);
    judged.verdict as u32
}

// The report on a text.
pub fn judge(text: &[u8]) -> Report
    ensures { result ≡ judged_of text.now }
{
    match loader::load(text) {
        Ok(loaded) => {
            let lines = Lent {
                fields: &loaded.lines.fields,
                starts: &loaded.lines.starts,
            };
            let outcome = walk::check(lines, loaded.counts);
            let phase = phases::after(lines, loaded.counts, outcome, true);
            let verdict = answers::verdict_of(phase);
            answers::verdict_numbers(verdict)
        }
        Err(fault) => turned_down(fault.number()),
    }
}

fn turned_down(number: u16) -> Report
    ensures { result ≡ refused_report number }
{
    Report {
        verdict: 2,
        number,
        state: 0,
        row: 0,
        sum: 0,
    }
}
