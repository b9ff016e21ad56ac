// The line of a desk call: `load N`, `advance N`, `verdict`, `measure N` or `drop`, where N is decimal, 1 to 20 digits, up to the largest
// u64. What a line says is in specs/Calls, one equation for every line.
#![tactic(auto)]

ghost use Rattle.std.specs.Prelude.{◌≡◌};
ghost use Rattle.call_lines.specs.Number.{with_digit, number_of};
ghost use Rattle.call_lines.specs.Calls.{number_behind, call_of};

#[derive(Clone, Copy)]
pub enum Call {
    Load(u64),
    Advance(u64),
    Verdict,
    Measure(u64),
    Drop,
}

// The longest line of a call, `advance` or `measure` with a number of 20 digits.
pub const LONGEST: usize = 28;

// The call that a line is, without its byte 10.
pub fn call_of(line: &[u8]) -> Option<Call>
    ensures { result ≡ call_of line.now }
{
    if line == b"verdict".as_slice() {
        return Some(Call::Verdict);
    }
    if line == b"drop".as_slice() {
        return Some(Call::Drop);
    }
    if let Some(n) = number_after(line, b"load ") {
        return Some(Call::Load(n));
    }
    if let Some(n) = number_after(line, b"advance ") {
        return Some(Call::Advance(n));
    }
    let n = number_after(line, b"measure ")?;
    Some(Call::Measure(n))
}

// The number that is all of a line after a word.
fn number_after(line: &[u8], word: &[u8]) -> Option<u64>
    ensures { result ≡ number_behind word.now line.now }
{
    number_of(line.strip_prefix(word)?)
}

// The number that digits say.
fn number_of(digits: &[u8]) -> Option<u64>
    ensures { result ≡ number_of digits.now }
{
    if digits.is_empty() || 20 < digits.len() {
        return None;
    }
    let mut n = 0u64;
    for byte in digits {
        n = with_digit(n, *byte)?;
    }
    Some(n)
}

// The number with one more digit at its end.
fn with_digit(n: u64, byte: u8) -> Option<u64>
    ensures { result ≡ with_digit n byte }
{
    if !byte.is_ascii_digit() {
        return None;
    }
    n.checked_mul(10)?.checked_add(u64::from(byte - b'0'))
}
