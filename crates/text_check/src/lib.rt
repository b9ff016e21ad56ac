// Whether a text's columns are at fault: 1, 2 and 3 of 01, "Turned down by the input". The definitions are in reader/specs/Text.
#![tactic(auto)]

ghost use Rattle.std.specs.Prelude.{◌≡◌};
ghost use Rattle.verdicts.specs.Refusals.{fault_found};
ghost use Rattle.reader.specs.Text.{columns_fault, lines_fault};

use verdicts::Fault;

const LINE_END: u8 = 10;

// The lowest of the faults 1, 2 and 3 that a text has.
#[tactic(auto, unfolding(reader::specs::Text::columns_fault))]
pub fn columns_fault(text: &[u8]) -> Result<(), Fault>
    ensures { fault_found result ≡ columns_fault text.now }
{
    if limits::MAX_BYTES < text.len() {
        return Err(Fault::TooLong);
    }
    lines_fault(text)
}

// The lower of the faults 2 and 3 that a text has. A line is where fields stand one after the other up to a byte 10, so
// that no search for the line's end is needed.
fn lines_fault(text: &[u8]) -> Result<(), Fault>
    ensures { fault_found result ≡ lines_fault text.now }
{
    let mut at = 0;
    let mut total = 0;
    let mut long = false;
    // Lines are of unequal length: no range or iterator has the places where they start, so a `for` is no plainer.
    while at < text.len() {
        let n = reader::count(&text[at..]);
        let end = at + columns::COLUMNS * n;
        if n == 0 {
            return Err(Fault::Columns);
        }
        if text.len() <= end {
            return Err(Fault::Columns);
        }
        if text[end] != LINE_END {
            return Err(Fault::Columns);
        }
        long = long | (limits::MAX_LINE_FIELDS < n);
        total += n;
        at = end + 1;
    }
    if long {
        return Err(Fault::Fields);
    }
    if limits::MAX_FIELDS < total {
        return Err(Fault::Fields);
    }
    Ok(())
}
