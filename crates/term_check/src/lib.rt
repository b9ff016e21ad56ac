// Whether a term of a line is well formed, on the line's bytes: two functions that call each other, the remaining depth falling.
//
// Each works on the part of the line that starts at its term. The rest of the line after a term is handed on as a part that starts in
// the middle of the line's bytes. What a term is and which are well formed is in the crate terms, what a field is in reader.
#![tactic(auto)]

ghost use Rattle.std.specs.Prelude.{◌≡◌};
ghost use Rattle.terms.specs.Read.{read_v, read_f};
ghost use Rattle.reader.specs.Line.{fields_of};
ghost use Rattle.term_check.specs.Checked.{checked_v, checked_f};

use terms::{FormulaMark, ValueMark};

// How many fields the value takes that a part of a line begins with, over so many parameters, in a row or not, of at most this depth, so that
// what comes next starts after them; none where it is no such well-formed value (fault 6).
#[cycle(formula_value)]
pub fn value(part: &[u8], params: u16, row: bool, depth: usize) -> Option<usize>
    ensures { result ≡ checked_v params row (read_v depth (fields_of part.now)) }
{
    if depth == 0 {
        return None; // a value here would be too deep
    }
    let mark = terms::value_mark(reader::field_at(part, 0)?);
    let body = reader::rest(part, 1);
    match mark {
        ValueMark::Number => {
            reader::field_at(body, 0)?;
            Some(2)
        }
        ValueMark::Parameter => {
            let i = reader::field_at(body, 0)?;
            if i < params { Some(2) } else { None }
        }
        ValueMark::SumValue => {
            if row {
                Some(1)
            } else {
                None // a sum value outside a row
            }
        }
        ValueMark::Arithmetic(_) => {
            let a = value(body, params, row, depth - 1)?;
            let b = value(reader::rest(body, a), params, row, depth - 1)?;
            Some(1 + a + b)
        }
        ValueMark::Choice => {
            let f = formula(body, params, row, depth - 1)?;
            let second = reader::rest(body, f);
            let a = value(second, params, row, depth - 1)?;
            let b = value(reader::rest(second, a), params, row, depth - 1)?;
            Some(1 + f + a + b)
        }
        ValueMark::Wrong => None,
    }
}

// The same for the formula that a part of a line begins with.
#[cycle(formula_value)]
pub fn formula(part: &[u8], params: u16, row: bool, depth: usize) -> Option<usize>
    ensures { result ≡ checked_f params row (read_f depth (fields_of part.now)) }
{
    if depth == 0 {
        return None; // a formula here would be too deep
    }
    let mark = terms::formula_mark(reader::field_at(part, 0)?);
    let body = reader::rest(part, 1);
    match mark {
        FormulaMark::Constant(_) => Some(1),
        FormulaMark::Comparison(_) => {
            let a = value(body, params, row, depth - 1)?;
            let b = value(reader::rest(body, a), params, row, depth - 1)?;
            Some(1 + a + b)
        }
        FormulaMark::Negation => {
            let f = formula(body, params, row, depth - 1)?;
            Some(1 + f)
        }
        FormulaMark::Connective(_) => {
            let f = formula(body, params, row, depth - 1)?;
            let g = formula(reader::rest(body, f), params, row, depth - 1)?;
            Some(1 + f + g)
        }
        FormulaMark::Wrong => None,
    }
}
