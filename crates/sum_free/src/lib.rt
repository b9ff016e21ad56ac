// Whether a term is sum-free, that is, does not read the sum value. Such a term has one value for all sum values (proofs/SumFree), so that a
// row of such terms need be asked for one of them only. It is looked at by the reader of the crate term_fold.
#![tactic(auto)]

ghost use Rattle.std.specs.Prelude.{◌≡◌, drop};
ghost use Rattle.terms.specs.Tree.{Value, Formula, num, par, sum_value, arith, choice, no_value, const, compare, negation, join, no_formula};
ghost use Rattle.terms.specs.Read.{read_v, read_f};
ghost use Rattle.sum_free.specs.SumFree.{sum_free_v, sum_free_f, found_v, found_f};

use term_fold::Fold;
use terms::{Arith, Compare, Join};

// Whether a term is sum-free, and where the next term stands.
#[derive(Clone, Copy)]
pub struct Found {
    pub free: bool,
    pub next: usize,
}

// What is sum-free: a term without a `2` in it.
#[derive(Clone, Copy)]
struct Freedom;

#[tactic(auto, unfolding(crate::specs::SumFree::sum_free_v, crate::specs::SumFree::sum_free_f))]
impl Fold for Freedom {
    type OfValue = bool;

    type OfFormula = bool;

    ghost of_value = { λ _ t. sum_free_v t };

    ghost of_formula = { λ _ t. sum_free_f t };

    fn number(self, _n: u16) -> bool {
        true
    }

    fn parameter(self, _i: u16) -> bool {
        true
    }

    fn sum_value(self) -> bool {
        false
    }

    fn arithmetic(
        self,
        _op: Arith,
        a: bool,
        b: bool,
        _desk: &limits::Fields,
        _at: usize,
        _depth: usize,
    ) -> bool {
        a & b
    }

    fn choice(
        self,
        f: bool,
        a: bool,
        b: bool,
        _desk: &limits::Fields,
        _at: usize,
        _depth: usize,
    ) -> bool {
        f & (a & b)
    }

    fn no_value(self) -> bool {
        true
    }

    fn constant(self, _b: bool) -> bool {
        true
    }

    fn comparison(self, _op: Compare, a: bool, b: bool) -> bool {
        a & b
    }

    fn negation(self, f: bool) -> bool {
        f
    }

    fn connective(self, _op: Join, f: bool, g: bool) -> bool {
        f & g
    }

    fn no_formula(self) -> bool {
        true
    }
}

// For the value at a place of the desk's fields.
pub fn value_sum_free(desk: &limits::Fields, at: usize, depth: usize) -> Found
    ensures { result ≡ found_v at (read_v depth (drop at desk.now)) }
{
    let term = term_fold::value(desk, at, Freedom, depth);
    Found {
        free: term.made,
        next: term.next,
    }
}

// For the formula at a place of the desk's fields.
pub fn formula_sum_free(desk: &limits::Fields, at: usize, depth: usize) -> Found
    ensures { result ≡ found_f at (read_f depth (drop at desk.now)) }
{
    let term = term_fold::formula(desk, at, Freedom, depth);
    Found {
        free: term.made,
        next: term.next,
    }
}
