// What C is told of terms: the number of a value, or that it has none; the truth of a formula, or that it has none; the numbers of values
// one after the other. What is meant is in specs/Terms.
#![tactic(auto)]

ghost use Rattle.std.specs.Prelude.{◌≡◌, drop};
ghost use Rattle.design.specs.Line.{value_in, formula_in, values_in};
ghost use Rattle.told_terms.specs.Terms.{value_told, formula_told, values_told, number_of, truth_of};

use has_value::{Held, Valued};

// What is told of a formula, and of a term without a value.
pub const FAILS: u32 = 0;

pub const HOLDS: u32 = 1;

const NO_TRUTH: u32 = 2;

const NO_VALUE: u32 = 65536;

// Eight values as they are told.
pub type Places = [u32; limits::MAX_PARAMETERS];

// The value term at a place of the fields.
pub fn value(fields: &limits::Fields, at: usize, values: &limits::Values, sum: u16) -> u32
    ensures { result ≡ value_told (value_in (drop at fields.now)).tree values.now sum }
{
    let x = has_value::value(fields, at, values, sum, limits::MAX_DEPTH);
    number(x)
}

// The formula there.
pub fn formula(fields: &limits::Fields, at: usize, values: &limits::Values, sum: u16) -> u32
    ensures { result ≡ formula_told (formula_in (drop at fields.now)).tree values.now sum }
{
    let x = has_value::formula(fields, at, values, sum, limits::MAX_DEPTH);
    truth(x)
}

// As the evaluator answers.
pub fn number(x: Valued) -> u32
    ensures { result ≡ number_of x }
{
    match x.value {
        Ok(n) => n as u32,
        Err(_) => NO_VALUE,
    }
}

pub fn truth(x: Held) -> u32
    ensures { result ≡ truth_of x }
{
    match x.holds {
        Ok(true) => HOLDS,
        Ok(false) => FAILS,
        Err(_) => NO_TRUTH,
    }
}

// The n value terms that stand one after the other from a place on.
pub fn values(
    fields: &limits::Fields,
    at: usize,
    n: u8,
    values: &limits::Values,
    sum: u16,
) -> Places
    ensures { result ≡ values_told (values_in n (drop at fields.now)) values.now sum }
{
    let m = steps::few(n);
    let mut told = [0u32; limits::MAX_PARAMETERS];
    let mut place = at;
    for i in 0..m {
        let x = has_value::value(fields, place, values, sum, limits::MAX_DEPTH);
        told[i] = number(x);
        place = x.next;
    }
    told
}
