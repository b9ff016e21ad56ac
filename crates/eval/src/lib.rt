// The value of a term, read from the desk's fields where it stands.
//
// It is made by the reader of the crate term_fold, whose front is put into `value` and `formula`, and these into their callers
// (tools/inlined.sh notices when that no longer happens). What a term's value is, and how a term is read from fields, is in the crate terms.
#![tactic(auto)]

ghost use Rattle.std.specs.Prelude.{◌≡◌, drop};
ghost use Rattle.terms.specs.Tree.{Value, Formula, num, par, sum_value, arith, choice, no_value, const, compare, negation, join, no_formula, eval_v, eval_f};
ghost use Rattle.terms.specs.Read.{read_v, read_f};
ghost use Rattle.eval.specs.Answer.{answer_v, answer_f};

use term_fold::Fold;
use terms::{Arith, Compare, Join};

// A term's value, and where the next term stands.
#[derive(Clone, Copy)]
pub struct Valued {
    pub value: u16,
    pub next: usize,
}

// Whether a formula holds, and where the next term stands.
#[derive(Clone, Copy)]
pub struct Held {
    pub holds: bool,
    pub next: usize,
}

// Evaluation at parameter values and a sum value.
#[derive(Clone, Copy)]
struct Evaluation<'a> {
    params: &'a limits::Values,
    sum: u16,
}

#[tactic(auto, unfolding(terms::specs::Tree::eval_v, terms::specs::Tree::eval_f))]
impl<'a> Fold for Evaluation<'a> {
    type OfValue = u16;

    type OfFormula = bool;

    ghost of_value = { λ e t. eval_v t e.params.now e.sum };

    ghost of_formula = { λ e t. eval_f t e.params.now e.sum };

    fn number(self, n: u16) -> u16 {
        n
    }

    fn parameter(self, i: u16) -> u16 {
        let params = self.params;
        terms::parameter(params, i)
    }

    fn sum_value(self) -> u16 {
        self.sum
    }

    fn arithmetic(
        self,
        op: Arith,
        a: u16,
        b: u16,
        _desk: &limits::Fields,
        _at: usize,
        _depth: usize,
    ) -> u16 {
        terms::arith_value(op, a, b)
    }

    fn choice(
        self,
        f: bool,
        a: u16,
        b: u16,
        _desk: &limits::Fields,
        _at: usize,
        _depth: usize,
    ) -> u16 {
        if f { a } else { b }
    }

    fn no_value(self) -> u16 {
        0
    }

    fn constant(self, b: bool) -> bool {
        b
    }

    fn comparison(self, op: Compare, a: u16, b: u16) -> bool {
        terms::compare_holds(op, a, b)
    }

    fn negation(self, f: bool) -> bool {
        !f
    }

    fn connective(self, op: Join, f: bool, g: bool) -> bool {
        terms::join_holds(op, f, g)
    }

    fn no_formula(self) -> bool {
        false
    }
}

// The value of the term at a place of the desk's fields, for parameter values and a sum value.
pub fn value(
    desk: &limits::Fields,
    at: usize,
    params: &limits::Values,
    sum: u16,
    depth: usize,
) -> Valued
    ensures { result ≡ answer_v at params.now sum (read_v depth (drop at desk.now)) }
{
    let evaluation = Evaluation { params, sum };
    let term = term_fold::value(desk, at, evaluation, depth);
    Valued {
        value: term.made,
        next: term.next,
    }
}

// Whether the formula at a place of the desk's fields holds.
pub fn formula(
    desk: &limits::Fields,
    at: usize,
    params: &limits::Values,
    sum: u16,
    depth: usize,
) -> Held
    ensures { result ≡ answer_f at params.now sum (read_f depth (drop at desk.now)) }
{
    let evaluation = Evaluation { params, sum };
    let term = term_fold::formula(desk, at, evaluation, depth);
    Held {
        holds: term.made,
        next: term.next,
    }
}
