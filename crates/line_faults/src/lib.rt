// Whether a line of a text shows a fault, by the bytes of the text and of what is before the line: for explanations to people, called rarely,
// so each question goes over the bytes again. The tests are in specs/Tests; what they decide is in fault_lines/specs/Shows.
#![tactic(auto)]

ghost use Rattle.std.specs.Prelude.{ℕ, List, ◌≡◌, ◌&&◌, leb, ◌+◌, ◌-◌, ◌*◌, ◌≤◌, min, suc, length, get_or, take, drop};
ghost use Rattle.reader.specs.Line.{fields_of};
ghost use Rattle.reader.specs.Text.{fields_by_line};
ghost use Rattle.kinds.specs.Kinds.{whole_text, entry_in};
ghost use Rattle.design.specs.Tests.{length_fits, numbers_fit};
ghost use Rattle.decision.specs.Admitted.{is_zero};
ghost use Rattle.design.specs.Line.{value_in};
ghost use Rattle.line_faults.specs.Tests as tests;

const LINE_END: u8 = 10;

// One more than there may be states: no number that is gathered goes past it.
const CAP: usize = limits::MAX_STATES + 1;

// Whether the line from one place to another is wanted, and shows the fault.
pub fn is_told(text: &[u8], at: usize, end: usize, fault: u16, wanted: bool) -> bool
    requires at_le_end { at ≤ end }
    requires end_in_bounds { end ≤ length text.now }
    ensures { result ≡ wanted && tests.shown fault text.now (take at text.now) (take (end - at) (drop at text.now)) (leb (length text.now) end) }
{
    wanted && shows(text, &text[..at], &text[at..end], fault, text.len() <= end)
}

// Whether a line shows the fault with this number: a line of the text, after what is before it; and whether the text ends with it.
fn shows<'a>(text: &'a [u8], before: &'a [u8], line: &'a [u8], fault: u16, last: bool) -> bool
    ensures { result ≡ tests.shown fault text.now before.now line.now last }
{
    // The fault is a number as in the contract of `is_told`, which may not change.
    match fault {
        2 => shows2(line, last),
        3 => shows3(before, line),
        4 => shows4(before, line),
        5 => shows5(before, line),
        6 => shows6(text, line),
        7 => shows7(text, before, line),
        _ => false,
    }
}

// A line that is not whole fields, or the last one without its end.
fn shows2(line: &[u8], last: bool) -> bool
    ensures { result ≡ tests.shows2 last line.now }
{
    let count = reader::count(line);
    if count == 0 {
        return true;
    }
    if columns::COLUMNS * count < line.len() {
        return true;
    }
    last
}

// A line of too many fields, or with which there are too many in all.
fn shows3<'a>(before: &'a [u8], line: &'a [u8]) -> bool
    ensures { result ≡ tests.shows3 (fields_by_line before.now) (fields_of line.now) }
{
    let count = reader::count(line);
    if limits::MAX_LINE_FIELDS < count {
        return true;
    }
    let sum = field_count(before);
    (sum <= limits::MAX_FIELDS) & (limits::MAX_FIELDS < add(sum, count))
}

// A line whose kind is unknown, falls, or is that of too many lines, or with a wrong count of fields.
fn shows4<'a>(before: &'a [u8], line: &'a [u8]) -> bool
    ensures { result ≡ tests.shows4 (fields_by_line before.now) (fields_of line.now) }
{
    let entry = kinds::entry_at(field(line, 0));
    let rank = entry.rank;
    if rank < last_rank(before) {
        return true;
    }
    if entry.most <= rank_count(before, rank) {
        return true;
    }
    !length_fits(line)
}

// Whether a line has exactly the fields of its kind, or at least those before its terms. Its twin in table_check asks a desk's arrays: what they
// share is one `if`, and a function for it no plainer.
fn length_fits(line: &[u8]) -> bool
    ensures { result ≡ length_fits whole_text (fields_of line.now) }
{
    let entry = kinds::entry_at(field(line, 0));
    let count = reader::count(line);
    let terms = entry.terms;
    if kinds::has_terms(terms) {
        return entry.fixed <= count;
    }
    count == entry.fixed
}

// A line with a size, initial value or span out of bounds, or with which there are too many states.
fn shows5<'a>(before: &'a [u8], line: &'a [u8]) -> bool
    ensures { result ≡ tests.shows5 (fields_by_line before.now) (fields_of line.now) }
{
    if !numbers_fit(line) {
        return true;
    }
    if field(line, 0) != 1 {
        return false;
    }
    let product = state_count(before);
    (product <= limits::MAX_STATES) & (limits::MAX_STATES < times(product, field(line, 1)))
}

// Whether a line has its size, initial value or span in bounds.
fn numbers_fit(line: &[u8]) -> bool
    ensures { result ≡ numbers_fit (fields_of line.now) }
{
    let entry = kinds::entry_at(field(line, 0));
    let role = entry.role;
    table_check::in_bounds(role, field(line, 1), field(line, 2))
}

// A line that is not the terms of its kind.
fn shows6<'a>(text: &'a [u8], line: &'a [u8]) -> bool
    ensures { result ≡ tests.shows6 (fields_by_line text.now) (fields_of line.now) }
{
    let n = small(rank_count(text, 1));
    let m = small(rank_count(text, 2));
    let i = small(row_count(text, 3, 0));
    !line_check::line_fits(line, field(line, 0), n, m, i)
}

// A row whose action an earlier row has, that is internal and should not be, or carries data, or has another span than the other process.
fn shows7<'a>(text: &'a [u8], before: &'a [u8], line: &'a [u8]) -> bool
    ensures { result ≡ tests.shows7 (fields_by_line text.now) (fields_by_line before.now) (fields_of line.now) }
{
    let kind = field(line, 0);
    let action = field(line, 1);
    if kind == 3 {
        if action == 0 {
            return !is_bare(line, small(rank_count(text, 1)));
        }
        return 0 < row_count(before, 3, action);
    }
    if kind == 4 {
        if action == 0 {
            return true;
        }
        if 0 < row_count(before, 4, action) {
            return true;
        }
        return 0 < clash_count(text, action, field(line, 2));
    }
    false
}

// Whether a row's data, after its condition, of n parameters, is `0 0`.
fn is_bare(line: &[u8], n: u16) -> bool
    ensures { result ≡ tests.bare_by n (drop 3 (fields_of line.now)) }
{
    let part = line_check::after_fields(line, 3);
    let Some(used) = term_check::formula(part, n, true, limits::MAX_DEPTH) else {
        return true;
    };
    is_zero(line_check::after_fields(part, used))
}

// Whether the value that a part begins with is `0 0`.
fn is_zero(part: &[u8]) -> bool
    ensures { result ≡ is_zero (value_in (fields_of part.now)).tree }
{
    if reader::count(part) < 2 {
        return false;
    }
    (field(part, 0) == 0) & (field(part, 1) == 0)
}

// How many fields the lines of a part have.
fn field_count(part: &[u8]) -> usize
    ensures { result ≡ tests.gathered tests.add_fields 0 (fields_by_line part.now) }
{
    gathered(part, 0, |n, line| add(n, reader::count(line)))
}

// How many of them are of a rank.
fn rank_count(part: &[u8], rank: usize) -> usize
    ensures { result ≡ tests.gathered (tests.add_rank rank) 0 (fields_by_line part.now) }
{
    gathered(part, 0, |n, line| {
        add(n, usize::from(rank_of(field(line, 0)) == rank))
    })
}

// The rank of the last; 0 where there is none.
fn last_rank(part: &[u8]) -> usize
    ensures { result ≡ tests.gathered tests.the_rank 0 (fields_by_line part.now) }
{
    gathered(part, 0, |_, line| rank_of(field(line, 0)))
}

// The product of the kind 1 sizes.
fn state_count(part: &[u8]) -> usize
    ensures { result ≡ tests.gathered tests.times_size 1 (fields_by_line part.now) }
{
    gathered(part, 1, |n, line| with_size(n, line))
}

// The product with a line's size, if it is of kind 1.
fn with_size(n: usize, line: &[u8]) -> usize
    ensures { result ≡ tests.times_size n (fields_of line.now) }
{
    if field(line, 0) == 1 {
        times(n, field(line, 1))
    } else {
        n
    }
}

// How many are rows of a kind with an action.
fn row_count(part: &[u8], kind: u16, action: u16) -> usize
    ensures { result ≡ tests.gathered (tests.add_action kind action) 0 (fields_by_line part.now) }
{
    gathered(part, 0, |n, line| {
        add(n, usize::from(has_action(line, kind, action)))
    })
}

// How many are kind 3 lines with an action and another span.
fn clash_count(part: &[u8], action: u16, span: u16) -> usize
    ensures { result ≡ tests.gathered (tests.add_clash action span) 0 (fields_by_line part.now) }
{
    gathered(part, 0, |n, line| {
        add(n, usize::from(clashes(line, action, span)))
    })
}

// What is gathered of the lines of a part: from a number on, by what each makes of the number so far.
fn gathered<S: Fn(usize, &[u8]) -> usize>(part: &[u8], start: usize, step: S) -> usize
    requires { S.IsAlwaysCallable step }
    ensures { (by : ℕ → List ℕ → ℕ) → ((n : _) (line : _) (r : _) → S.post step n line r → r ≡ by n (fields_of line.now)) → result ≡ tests.gathered by start (fields_by_line part.now) }
{
    let mut at = 0;
    let mut n = start;
    while at < part.len() {
        let end = line_end(part, at);
        n = step(n, &part[at..end]);
        at = onward(end, part.len());
    }
    n
}

// The rank of a kind.
fn rank_of(kind: u16) -> usize
    ensures { result ≡ (entry_in whole_text kind).rank }
{
    let entry = kinds::entry_at(kind);
    entry.rank
}

// Whether a line is a row of this kind with this action.
fn has_action(line: &[u8], kind: u16, action: u16) -> bool
    ensures { result ≡ tests.has_action kind action (fields_of line.now) }
{
    (field(line, 0) == kind) & (field(line, 1) == action)
}

// Whether a line is a kind 3 line with this action and another span.
fn clashes(line: &[u8], action: u16, span: u16) -> bool
    ensures { result ≡ tests.clashes action span (fields_of line.now) }
{
    has_action(line, 3, action) & (field(line, 2) != span)
}

// A sum, at most `CAP`.
fn add(n: usize, m: usize) -> usize
    ensures { result ≡ tests.cap (n + m) }
{
    n.saturating_add(m).min(CAP)
}

// A product, at most `CAP`.
fn times(n: usize, size: u16) -> usize
    ensures { result ≡ tests.cap (tests.cap n * size) }
{
    (n.min(CAP) * size as usize).min(CAP)
}

// A count as a field's number; 0 where it can be none.
fn small(n: usize) -> u16
    ensures { result ≡ tests.small n }
{
    u16::try_from(n).unwrap_or(0)
}

// Field k of a line, and 0 past its end.
fn field(line: &[u8], k: usize) -> u16
    ensures { result ≡ get_or (fields_of line.now) k 0 }
{
    if reader::count(line) <= k {
        return 0;
    }
    reader::field_at(line, k).unwrap_or(0)
}

// Where the line ends that starts at a place: at its byte 10, or at the text's end.
pub fn line_end(text: &[u8], at: usize) -> usize
    ensures { result ≡ at + tests.line_length (drop at text.now) }
{
    for i in at..text.len() {
        if text[i] == LINE_END {
            return i;
        }
    }
    at.max(text.len())
}

// Where the next line starts, or the text's end.
pub fn onward(end: usize, length: usize) -> usize
    ensures { result ≡ min (suc end) length }
{
    end.saturating_add(1).min(length)
}
