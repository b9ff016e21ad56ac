// Faults 4 and 5 of the lines that a desk's arrays hold: kinds and counts, fields and their bounds, by the table of kinds (crate kinds).
// Every function answers any arrays. What is tested is in design/specs/Tests; that it is the absence of the faults, in design/proofs.
// All but `counts_of` take slices of any length: a `Lent` would ask more of callers than is needed.
// The product of sizes, the last of fault 5, is counted in the crate layout.
#![tactic(auto)]

ghost use Rattle.std.specs.Prelude.{◌≡◌, length, get_or, replicate};
ghost use Rattle.kinds.specs.Kinds.{whole_text, ranks};
ghost use Rattle.design.specs.Lines.{counts_of};
ghost use Rattle.design.specs.Loaded.{line_at, held_lines};
ghost use Rattle.design.specs.Tests.{climbs, counts_allowed, layout_fits, each_line_is, length_fits, numbers_fit_by, numbers_fit};
ghost use Rattle.table_check.specs.Tally.{Tallied, kind_fits, tally_fits};

use design::Counts;
use kinds::Role;

// How many lines there are of each rank.
type Tally = [usize; kinds::RANKS];

// Whether the first n lines have known kinds that do not fall, as many of each as there may be, and the fields that they need.
pub fn layout_fits<'a>(fields: &'a [u16], starts: &'a [u16], n: usize) -> bool
    ensures { result ≡ layout_fits whole_text (held_lines fields.now starts.now n) }
{
    if !kinds_climb(fields, starts, n) {
        return false;
    }
    if !counts_allowed(fields, starts, n) {
        return false;
    }
    lengths_fit(fields, starts, n)
}

// Whether each of the first n lines has its size, initial value or span in bounds.
pub fn numbers_fit<'a>(fields: &'a [u16], starts: &'a [u16], n: usize) -> bool
    ensures { result ≡ each_line_is numbers_fit (held_lines fields.now starts.now n) }
{
    (0..n).all(|i| line_numbers_fit(fields, starts, i))
}

// How many of the first n lines are of kinds 1 to 4 and 8, whose ranks are their numbers.
pub fn counts_of<'a>(fields: &'a limits::Fields, starts: &'a limits::Starts, n: usize) -> Counts
    ensures { result ≡ counts_of (held_lines fields.now starts.now n) }
{
    let mut tally = [0usize; kinds::RANKS];
    count_ranks(fields, starts, n, &mut tally);
    Counts {
        kind1: tally[1],
        kind2: tally[2],
        kind3: tally[3],
        kind4: tally[4],
        kind8: tally[8],
    }
}

// Whether the first n lines' kinds are known and do not fall in rank.
fn kinds_climb<'a>(fields: &'a [u16], starts: &'a [u16], n: usize) -> bool
    ensures { result ≡ climbs whole_text 0 (held_lines fields.now starts.now n) }
{
    let mut lowest = 0;
    for i in 0..n {
        let entry = kinds::entry_at(line_field(fields, starts, i, 0));
        if entry.most == 0 {
            return false;
        }
        if entry.rank < lowest {
            return false;
        }
        lowest = entry.rank;
    }
    true
}

// Whether the first n lines have as many of each kind as there may be.
fn counts_allowed<'a>(fields: &'a [u16], starts: &'a [u16], n: usize) -> bool
    ensures { result ≡ counts_allowed whole_text (held_lines fields.now starts.now n) }
{
    let mut tally = [0usize; kinds::RANKS];
    count_ranks(fields, starts, n, &mut tally);
    tally_fits(&tally)
}

// How many of the first n lines are of each rank.
fn count_ranks<'a>(fields: &'a [u16], starts: &'a [u16], n: usize, tally: &mut Tally)
    requires { tally.old ≡ replicate ranks 0 }
    ensures { Tallied (held_lines fields.now starts.now n) tally.new }
{
    for i in 0..n {
        let entry = kinds::entry_at(line_field(fields, starts, i, 0));
        let rank = entry.rank;
        tally[rank] += 1;
    }
}

// Whether there are as many lines of each kind's rank as there may be.
fn tally_fits(tally: &Tally) -> bool
    ensures { result ≡ tally_fits tally.now }
{
    (0..kinds::LAST_KIND + 1).all(|kind| kind_fits(tally, kind))
}

// Whether there are no fewer and no more lines of a kind's rank; of what is no kind there are none.
fn kind_fits(tally: &Tally, kind: u16) -> bool
    ensures { result ≡ kind_fits tally.now kind }
{
    let entry = kinds::entry_at(kind);
    if entry.most == 0 {
        return true;
    }
    let rank = entry.rank;
    let count = tally[rank];
    (entry.fewest <= count) & (count <= entry.most)
}

// Whether each of the first n lines has as many fields as its kind asks for.
fn lengths_fit<'a>(fields: &'a [u16], starts: &'a [u16], n: usize) -> bool
    ensures { result ≡ each_line_is (length_fits whole_text) (held_lines fields.now starts.now n) }
{
    (0..n).all(|i| length_fits(fields, starts, i))
}

// Whether line i has exactly the fields of its kind, or at least those before its terms.
fn length_fits<'a>(fields: &'a [u16], starts: &'a [u16], i: usize) -> bool
    ensures { result ≡ length_fits whole_text (line_at fields.now starts.now i) }
{
    let entry = kinds::entry_at(line_field(fields, starts, i, 0));
    let length = line_length(fields, starts, i);
    let terms = entry.terms;
    if kinds::has_terms(terms) {
        return entry.fixed <= length;
    }
    length == entry.fixed
}

// Whether line i has its size, initial value or span in bounds.
fn line_numbers_fit<'a>(fields: &'a [u16], starts: &'a [u16], i: usize) -> bool
    ensures { result ≡ numbers_fit (line_at fields.now starts.now i) }
{
    let entry = kinds::entry_at(line_field(fields, starts, i, 0));
    let role = entry.role;
    in_bounds(
        role,
        line_field(fields, starts, i, 1),
        line_field(fields, starts, i, 2),
    )
}

// "Sizes and spans are at least 1, spans at most 256, initial values below their size."
pub fn in_bounds(role: Role, first: u16, second: u16) -> bool
    ensures { result ≡ numbers_fit_by role first second }
{
    match role {
        Role::Parameter => (1 <= first) & (second < first),
        Role::Row => (1 <= second) & (second <= limits::MAX_SPAN),
        Role::Other => true,
    }
}

// How many fields line i has.
fn line_length<'a>(fields: &'a [u16], starts: &'a [u16], i: usize) -> usize
    ensures { result ≡ length (line_at fields.now starts.now i) }
{
    if starts.len() <= i {
        return 0;
    }
    let start = terms::field(starts, i) as usize;
    let end = terms::field(starts, i + 1) as usize;
    end.min(fields.len()).saturating_sub(start)
}

// Field j of line i, and 0 past its end.
fn line_field<'a>(fields: &'a [u16], starts: &'a [u16], i: usize, j: usize) -> u16
    ensures { result ≡ get_or (line_at fields.now starts.now i) j 0 }
{
    if j < line_length(fields, starts, i) {
        let start = terms::field(starts, i) as usize;
        terms::field(fields, start + j)
    } else {
        0
    }
}
