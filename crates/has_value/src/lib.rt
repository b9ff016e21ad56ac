// The value of a term, and whether it has one, read from the desk's fields where it stands: `Ok` of what evaluation computes where the term
// has a value, and `Err` of it where it has none. The crate eval stays for terms that are known to have a value, so that a walk which need
// not ask doesn't pay for the answer.
//
// It is made by the reader of the crate term_fold. What a term's value is, and when it has one, is in the crate terms.
#![tactic(auto)]

ghost use Rattle.std.specs.Prelude.{◌≡◌, ◌&&◌, cond, Ok, Err, is_ok, drop};
ghost use Rattle.terms.specs.Tree.{Value, Formula, num, par, sum_value, arith, choice, no_value, const, compare, negation, join, no_formula};
ghost use Rattle.terms.specs.Read.{read_v, read_f};
ghost use Rattle.has_value.specs.Answer.{computed, value_of, truth_of, answer_v, answer_f};

use term_fold::Fold;
use terms::{Arith, Compare, Join};

// A term's value, or the number computed for it where it has none, and where the next term stands.
#[derive(Clone, Copy)]
pub struct Valued {
    pub value: Result<u16, u16>,
    pub next: usize,
}

// Whether a formula holds, or the truth computed for it where it has no value, and where the next term stands.
#[derive(Clone, Copy)]
pub struct Held {
    pub holds: Result<bool, bool>,
    pub next: usize,
}

// What was computed, with a value or without.
fn computed<T: Copy>(answer: Result<T, T>) -> T
    ensures { result ≡ computed answer }
{
    match answer {
        Ok(x) => x,
        Err(x) => x,
    }
}

// An answer, by whether there is a value.
fn answer<T: Copy>(has: bool, x: T) -> Result<T, T>
    ensures { result ≡ cond has (Ok x) (Err x) }
{
    if has { Ok(x) } else { Err(x) }
}

// An answer made of two, which has a value where both have one.
fn of_both<T: Copy>(a: Result<T, T>, b: Result<T, T>, x: bool) -> Result<bool, bool>
    ensures { result ≡ cond (is_ok a && is_ok b) (Ok x) (Err x) }
{
    answer(a.is_ok() & b.is_ok(), x)
}

// Evaluation at parameter values and a sum value: "any term that evaluates" one without a value has none.
#[derive(Clone, Copy)]
struct Evaluation<'a> {
    params: &'a limits::Values,
    sum: u16,
}

#[tactic(auto, using(crate::proofs::Laws::ok_is, crate::proofs::Laws::computed_is), unfolding(terms::specs::Tree::eval_v, terms::specs::Tree::eval_f, terms::specs::Tree::has_v, terms::specs::Tree::has_f))]
impl<'a> Fold for Evaluation<'a> {
    type OfValue = Result<u16, u16>;

    type OfFormula = Result<bool, bool>;

    ghost of_value = { λ e t. value_of t e.params.now e.sum };

    ghost of_formula = { λ e t. truth_of t e.params.now e.sum };

    fn number(self, n: u16) -> Result<u16, u16> {
        Ok(n)
    }

    fn parameter(self, i: u16) -> Result<u16, u16> {
        let params = self.params;
        Ok(terms::parameter(params, i))
    }

    fn sum_value(self) -> Result<u16, u16> {
        Ok(self.sum)
    }

    fn arithmetic(
        self,
        op: Arith,
        a: Result<u16, u16>,
        b: Result<u16, u16>,
        _desk: &limits::Fields,
        _at: usize,
        _depth: usize,
    ) -> Result<u16, u16> {
        let x = computed(a);
        let y = computed(b);
        let has = a.is_ok() & (b.is_ok() & terms::arith_has(op, y));
        answer(has, terms::arith_value(op, x, y))
    }

    fn choice(
        self,
        f: Result<bool, bool>,
        a: Result<u16, u16>,
        b: Result<u16, u16>,
        _desk: &limits::Fields,
        _at: usize,
        _depth: usize,
    ) -> Result<u16, u16> {
        let taken = if computed(f) { a } else { b };
        answer(f.is_ok() & taken.is_ok(), computed(taken))
    }

    fn no_value(self) -> Result<u16, u16> {
        Err(0)
    }

    fn constant(self, b: bool) -> Result<bool, bool> {
        Ok(b)
    }

    fn comparison(
        self,
        op: Compare,
        a: Result<u16, u16>,
        b: Result<u16, u16>,
    ) -> Result<bool, bool> {
        of_both(a, b, terms::compare_holds(op, computed(a), computed(b)))
    }

    fn negation(self, f: Result<bool, bool>) -> Result<bool, bool> {
        answer(f.is_ok(), !computed(f))
    }

    fn connective(
        self,
        op: Join,
        f: Result<bool, bool>,
        g: Result<bool, bool>,
    ) -> Result<bool, bool> {
        of_both(f, g, terms::join_holds(op, computed(f), computed(g)))
    }

    fn no_formula(self) -> Result<bool, bool> {
        Err(false)
    }
}

// The value of the term at a place of the desk's fields, for parameter values and a sum value.
pub fn value(
    desk: &limits::Fields,
    at: usize,
    params: &limits::Values,
    sum: u16,
    depth: usize,
) -> Valued
    ensures { result ≡ answer_v at params.now sum (read_v depth (drop at desk.now)) }
{
    let evaluation = Evaluation { params, sum };
    let term = term_fold::value(desk, at, evaluation, depth);
    Valued {
        value: term.made,
        next: term.next,
    }
}

// Whether the formula at a place of the desk's fields holds.
pub fn formula(
    desk: &limits::Fields,
    at: usize,
    params: &limits::Values,
    sum: u16,
    depth: usize,
) -> Held
    ensures { result ≡ answer_f at params.now sum (read_f depth (drop at desk.now)) }
{
    let evaluation = Evaluation { params, sum };
    let term = term_fold::formula(desk, at, evaluation, depth);
    Held {
        holds: term.made,
        next: term.next,
    }
}
