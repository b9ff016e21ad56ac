// Fault 6 of one line, on the line's bytes: whether the line is the terms that its kind asks for, one after the other, and nothing else.
//
// Each term is checked where it starts (crate term_check), and the rest of the line after it is handed on as a part. Every function
// answers any bytes. What is tested is in specs/LineFits; that it is the absence of fault 6, in proofs/LineFits.
#![tactic(auto)]

ghost use Rattle.std.specs.Prelude.{ℕ, ◌≡◌, ◌∷◌, List, Option, drop};
ghost use Rattle.reader.specs.Line.{fields_of};
ghost use Rattle.kinds.specs.Kinds.{formula, n_values, n_formulas, sorts_of, reads_sum};
ghost use Rattle.line_check.specs.LineFits.{nothing, terms_fit, each_fits, line_fits};

use kinds::Follow;

// Whether a line of this kind is as it should be, where n lines of the text are of kind 1 and m of kind 2, and i rows of the implementation
// are internal.
pub fn line_fits(line: &[u8], kind: u16, n: u16, m: u16, i: u16) -> bool
    ensures { result ≡ line_fits n m i (fields_of line.now) kind }
{
    let entry = kinds::entry_at(kind);
    let terms = entry.terms;
    if !kinds::has_terms(terms) {
        return true;
    }
    let side = entry.side;
    let params = kinds::own(side, n, m);
    terms_fit(after_fields(line, entry.fixed), terms, params, m, i)
}

// Whether a part is the terms that follow, of n parameters, where m lines are of kind 2 and i rows internal, and nothing else.
fn terms_fit(part: &[u8], terms: Follow, n: u16, m: u16, i: u16) -> bool
    ensures { result ≡ terms_fit n (reads_sum terms) (sorts_of terms n m i) (fields_of part.now) }
{
    match terms {
        Follow::Nothing => ended(part),
        Follow::RowTerms => formula_then_values_fit(part, 1 + n as usize, n, true),
        Follow::Formula => formula_then_values_fit(part, 0, n, false),
        Follow::Mapped => values_fit(part, m as usize, n, false),
        Follow::Value => values_fit(part, 1, n, false),
        Follow::Marks => formulas_fit(part, i as usize, n, true),
    }
}

// Whether a part is a formula and so many values, of so many parameters, in a row or not, and nothing else.
fn formula_then_values_fit(part: &[u8], count: usize, params: u16, row: bool) -> bool
    ensures { result ≡ terms_fit params row (formula ∷ n_values count) (fields_of part.now) }
{
    let Some(used) = term_check::formula(part, params, row, limits::MAX_DEPTH) else {
        return false;
    };
    values_fit(reader::rest(part, used), count, params, row)
}

// Whether a part is so many values and nothing else.
fn values_fit(part: &[u8], count: usize, params: u16, row: bool) -> bool
    ensures { result ≡ terms_fit params row (n_values count) (fields_of part.now) }
{
    each_fits(part, count, |left| {
        term_check::value(left, params, row, limits::MAX_DEPTH)
    })
}

// Whether a part is so many formulas and nothing else.
fn formulas_fit(part: &[u8], count: usize, params: u16, row: bool) -> bool
    ensures { result ≡ terms_fit params row (n_formulas count) (fields_of part.now) }
{
    each_fits(part, count, |left| {
        term_check::formula(left, params, row, limits::MAX_DEPTH)
    })
}

// Whether a part is so many terms, by the check of one, and nothing else.
fn each_fits<C: Fn(&[u8]) -> Option<usize>>(part: &[u8], count: usize, check: C) -> bool
    requires { C.IsAlwaysCallable check }
    ensures { (next : List ℕ → Option ℕ) → ((bytes : _) (r : _) → C.post check bytes r → r ≡ next bytes.now) → result ≡ each_fits next count part.now }
{
    let mut left = part;
    for i in 0..count {
        let Some(used) = check(left) else {
            return false;
        };
        left = reader::rest(left, used);
    }
    ended(left)
}

// Whether no field is left.
fn ended(part: &[u8]) -> bool
    ensures { result ≡ nothing (fields_of part.now) }
{
    reader::field_at(part, 0).is_none() // a field that is left: the line ends late
}

// What is left of a part after n fields; of a part with fewer, what stands after its last.
pub fn after_fields(part: &[u8], n: usize) -> &[u8]
    ensures { fields_of result.now ≡ drop n (fields_of part.now) }
{
    let mut left = part;
    for i in 0..n {
        if reader::field_at(left, 0).is_none() {
            return left;
        }
        left = reader::rest(left, 1);
    }
    left
}
