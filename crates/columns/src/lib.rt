// The columns of a field: which six bytes are a field, and of which number (specs/Columns). A field is found as blanks, counted on a word of
// eight bytes (specs/Word), and digits behind them (specs/Scan); that this finds the same is proved in proofs/Scan.
#![tactic(auto)]

ghost use Rattle.std.specs.Prelude.{ℕ, ◌≡◌, ◌==◌, ◌+◌, ◌*◌, ◌≤◌, [], ◌∷◌, length, take, drop, take_while};
ghost use Rattle.columns.specs.Columns.{field_of};
ghost use Rattle.columns.specs.Scan.{blanks_of, digits_from};
ghost use Rattle.columns.specs.Word.{bytes_of, word_of};

// The columns of a field.
pub const COLUMNS: usize = 6;

// The last of them, counted from 0: that of a number's ones.
const ONES: usize = 5;

const BLANK: u8 = b' ';

const DIGIT_0: u8 = b'0';

// The bytes of a word, and a word of blanks.
const WORD_BYTES: usize = 8;

const BLANKS: u64 = 0x2020_2020_2020_2020;

const BYTE_BITS: u32 = 8;

// The number of the field in the k-th six columns of a line, counted from 0; none where they are no field, or the line has no k-th six.
pub fn field_in(line: &[u8], k: usize) -> Option<u16>
    ensures { result ≡ field_of (take 6 (drop (6 * k) line.now)) }
{
    if k < line.len() / COLUMNS {
        let at = COLUMNS * k;
        first_field(&line[at..])
    } else {
        None
    }
}

// The field in the first six columns: blanks, then digits, of which only a single one may begin with 0. One digit is the usual, and needs
// no loop.
fn first_field(part: &[u8]) -> Option<u16>
    requires { 6 ≤ length part.now }
    ensures { result ≡ field_of (take 6 part.now) }
{
    let b = blanks(part);
    if b == ONES {
        return digit(part[ONES]);
    }
    if COLUMNS <= b {
        return None;
    }
    if part[b] == DIGIT_0 {
        return None;
    }
    digits(part, b)
}

// The blanks that begin the first six columns: on one word of the eight bytes from the first column on, byte by byte where fewer are left.
fn blanks(part: &[u8]) -> usize
    ensures { result ≡ blanks_of (take 6 part.now) }
{
    if WORD_BYTES <= part.len() {
        blanks_in(eight_bytes(part))
    } else {
        COLUMNS.min(blanks_by_bytes(part))
    }
}

// The eight bytes that a part begins with as a word, the first one lowest.
fn eight_bytes(part: &[u8]) -> u64
    requires { 8 ≤ length part.now }
    ensures { result ≡ word_of (take 8 part.now) }
{
    four_bytes(part, 0) as u64 + four_bytes(part, 4) as u64 * 0x1_0000_0000
}

// Four bytes of a part, the first one lowest.
fn four_bytes(part: &[u8], at: usize) -> u32
    requires { at + 4 ≤ length part.now }
    ensures { result ≡ word_of (take 4 (drop at part.now)) }
{
    two_bytes(part, at) as u32 + two_bytes(part, at + 2) as u32 * 0x1_0000
}

// Two bytes of a part, the first one lower.
fn two_bytes(part: &[u8], at: usize) -> u16
    requires { at + 2 ≤ length part.now }
    ensures { result ≡ word_of (take 2 (drop at part.now)) }
{
    let low = part[at];
    let high = part[at + 1];
    low as u16 + high as u16 * 0x100
}

// The blanks that begin the first six of a word's bytes: the lowest bit in which it differs from blanks is in the first byte that is none.
fn blanks_in(word: u64) -> usize
    ensures { result ≡ blanks_of (take 6 (bytes_of 8 word)) }
{
    let count = u64::trailing_zeros(word ^ BLANKS) / BYTE_BITS;
    COLUMNS.min(count as usize)
}

// The blanks that begin a part, one after the other. They are counted to the part's end, at most the seventh byte: a loop to the sixth would be
// unrolled and make the reader too large to be put into its callers.
fn blanks_by_bytes(part: &[u8]) -> usize
    ensures { result ≡ length (take_while (λ (b : ℕ). b == 32) part.now) }
{
    part.iter().take_while(|b| **b == BLANK).count()
}

// The number of a digit, if the byte is one.
fn digit(b: u8) -> Option<u16>
    ensures { result ≡ digits_from 0 (b ∷ []) }
{
    if b.is_ascii_digit() {
        Some((b - DIGIT_0) as u16)
    } else {
        None
    }
}

// The number that the columns from one on to the sixth are the digits of, read from the sixth back.
fn digits(part: &[u8], from: usize) -> Option<u16>
    requires { (6 ≤ length part.now) × (from ≤ 6) }
    ensures { result ≡ digits_from 0 (drop from (take 6 part.now)) }
{
    let mut n: u32 = 0;
    let mut weight: u32 = 1;
    for i in (from..COLUMNS).rev() {
        n += digit(part[i])? as u32 * weight;
        weight *= 10;
    }
    u16::try_from(n).ok()
}
