// Which lines of a text show the fault by which it is turned down, for explanations to people. What a line shows is in specs/Shows; the tests of
// a line are in line_faults, and that they decide it in proofs/Decides.
#![tactic(auto)]

ghost use Rattle.std.specs.Prelude.{◌≤◌, ◌≡◌, length};
ghost use Rattle.limits.specs.Limits.{max_bytes};
ghost use Rattle.loader.specs.Load.{fault_of};
ghost use Rattle.fault_lines.specs.Shows.{Tells};

// The first line from line `from` on that shows the fault by which the text is turned down; 0 if there is none.
pub fn next(text: &[u8], from: usize) -> usize
    ensures { Tells text.now from result }
{
    if limits::MAX_BYTES < text.len() {
        return 0; // a text that is too long is no line's fault
    }
    let Err(fault) = loader::load(text) else {
        return 0; // no line of a design text
    };
    first_line(text, fault.number(), from)
}

// The same, where the fault is known.
fn first_line(text: &[u8], fault: u16, from: usize) -> usize
    requires text_value { fault_of text.now ≡ fault }
    requires text_len_bound { length text.now ≤ max_bytes }
    ensures { Tells text.now from result }
{
    let mut at = 0;
    let mut line = 1;
    // A line is asked for by its places in the text, and lines are of unequal length: a `for` over them would count both, and be no plainer.
    while at < text.len() {
        let end = line_faults::line_end(text, at);
        if line_faults::is_told(text, at, end, fault, from <= line) {
            return line;
        }
        at = line_faults::onward(end, text.len());
        line += 1;
    }
    0
}
