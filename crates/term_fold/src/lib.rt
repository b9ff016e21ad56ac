// One reader of terms: what a fold makes of a term's parts, it makes of the term, read from the desk's fields where it stands. Functions that
// call each other, the remaining depth falling.
//
// `value` and `formula` are the front: they answer leaves themselves and are small enough for the compiler to put them into their callers
// (tools/inlined.sh notices when it no longer does). Behind them `value_by_mark` and `formula_by_mark` answer every term. A
// function that calls itself is never put into another, and each of these two calls itself in one arm: that keeps the front small.
#![tactic(auto)]

ghost use Rattle.std.specs.Prelude.{◌≡◌, drop};
ghost use Rattle.terms.specs.Tree.{Value, Formula, num, par, sum_value, arith, choice, no_value, const, compare, negation, join, no_formula};
ghost use Rattle.terms.specs.Read.{read_v, read_f};
ghost use Rattle.term_fold.specs.Made.{made};

use terms::{Arith, Compare, FormulaMark, Join, ValueMark};

// What is made of a term, and where the next one stands.
#[derive(Clone, Copy)]
pub struct Made<T> {
    pub made: T,
    pub next: usize,
}

// What is made of a value and of a formula, by what is made of its parts. An operation is also told where its second value stands, and a
// choice where its formula does, for a fold that asks more of them.
pub trait Fold: Copy {
    type OfValue: Copy;

    type OfFormula: Copy;

    ghost of_value: { Self → Value → Self.OfValue };

    ghost of_formula: { Self → Formula → Self.OfFormula };

    fn number(self, n: u16) -> Self::OfValue
        ensures { result ≡ of_value self (num n) };

    fn parameter(self, i: u16) -> Self::OfValue
        ensures { result ≡ of_value self (par i) };

    fn sum_value(self) -> Self::OfValue
        ensures { result ≡ of_value self sum_value };

    fn arithmetic(
        self,
        op: Arith,
        a: Self::OfValue,
        b: Self::OfValue,
        desk: &limits::Fields,
        at: usize,
        depth: usize,
    ) -> Self::OfValue
        ensures { let y : Value = (read_v depth (drop at desk.now)).tree in (x : Value) → a ≡ of_value self x → b ≡ of_value self y → result ≡ of_value self (arith op x y) };

    fn choice(
        self,
        f: Self::OfFormula,
        a: Self::OfValue,
        b: Self::OfValue,
        desk: &limits::Fields,
        at: usize,
        depth: usize,
    ) -> Self::OfValue
        ensures { let z : Formula = (read_f depth (drop at desk.now)).tree in (x y : Value) → f ≡ of_formula self z → a ≡ of_value self x → b ≡ of_value self y → result ≡ of_value self (choice z x y) };

    fn no_value(self) -> Self::OfValue
        ensures { result ≡ of_value self no_value };

    fn constant(self, b: bool) -> Self::OfFormula
        ensures { result ≡ of_formula self (const b) };

    fn comparison(self, op: Compare, a: Self::OfValue, b: Self::OfValue) -> Self::OfFormula
        ensures { (x y : Value) → a ≡ of_value self x → b ≡ of_value self y → result ≡ of_formula self (compare op x y) };

    fn negation(self, f: Self::OfFormula) -> Self::OfFormula
        ensures { (z : Formula) → f ≡ of_formula self z → result ≡ of_formula self (negation z) };

    fn connective(self, op: Join, f: Self::OfFormula, g: Self::OfFormula) -> Self::OfFormula
        ensures { (y z : Formula) → f ≡ of_formula self y → g ≡ of_formula self z → result ≡ of_formula self (join op y z) };

    fn no_formula(self) -> Self::OfFormula
        ensures { result ≡ of_formula self no_formula };
}

// Of the value at a place of the desk's fields. `0 n`, `1 i` and `2` are answered here; any other term, and one at the very end of the
// fields, goes by its mark.
#[cycle(formula_formula_by_mark_value_value_by_mark)]
pub fn value<F: Fold>(desk: &limits::Fields, at: usize, fold: F, depth: usize) -> Made<F::OfValue>
    ensures { result ≡ made (F.of_value fold) at (read_v depth (drop at desk.now)) }
{
    let fields: &[u16] = desk;
    if depth != 0 {
        if at < fields.len() {
            if at + 1 < fields.len() {
                let mark = fields[at];
                if mark == terms::NUMBER {
                    return Made {
                        made: fold.number(fields[at + 1]),
                        next: at + 2,
                    };
                }
                if mark == terms::PARAMETER {
                    return Made {
                        made: fold.parameter(fields[at + 1]),
                        next: at + 2,
                    };
                }
                if mark == terms::SUM_VALUE {
                    return Made {
                        made: fold.sum_value(),
                        next: at + 1,
                    };
                }
            }
        }
    }
    value_by_mark(desk, at, fold, depth)
}

// Of the formula at a place of the desk's fields. `10` and `11` are answered here.
#[cycle(formula_formula_by_mark_value_value_by_mark)]
pub fn formula<F: Fold>(
    desk: &limits::Fields,
    at: usize,
    fold: F,
    depth: usize,
) -> Made<F::OfFormula>
    ensures { result ≡ made (F.of_formula fold) at (read_f depth (drop at desk.now)) }
{
    let fields: &[u16] = desk;
    if depth != 0 {
        if at < fields.len() {
            let mark = fields[at];
            if mark == terms::TRUE {
                return Made {
                    made: fold.constant(true),
                    next: at + 1,
                };
            }
            if mark == terms::FALSE {
                return Made {
                    made: fold.constant(false),
                    next: at + 1,
                };
            }
        }
    }
    formula_by_mark(desk, at, fold, depth)
}

// Of any value at a place. It calls itself for the last value of a choice.
#[cycle(formula_formula_by_mark_value_value_by_mark)]
fn value_by_mark<F: Fold>(
    desk: &limits::Fields,
    at: usize,
    fold: F,
    depth: usize,
) -> Made<F::OfValue>
    ensures { result ≡ made (F.of_value fold) at (read_v depth (drop at desk.now)) }
{
    let fields: &[u16] = desk;
    if depth == 0 {
        return Made {
            made: fold.no_value(),
            next: at,
        };
    }
    if fields.len() <= at {
        return Made {
            made: fold.no_value(),
            next: at,
        };
    }
    let mark = terms::value_mark(fields[at]);
    match mark {
        ValueMark::Number => {
            if at + 1 < fields.len() {
                Made {
                    made: fold.number(fields[at + 1]),
                    next: at + 2,
                }
            } else {
                Made {
                    made: fold.no_value(),
                    next: at,
                }
            }
        }
        ValueMark::Parameter => {
            if at + 1 < fields.len() {
                Made {
                    made: fold.parameter(fields[at + 1]),
                    next: at + 2,
                }
            } else {
                Made {
                    made: fold.no_value(),
                    next: at,
                }
            }
        }
        ValueMark::SumValue => Made {
            made: fold.sum_value(),
            next: at + 1,
        },
        ValueMark::Arithmetic(op) => {
            let a = value(desk, at + 1, fold, depth - 1);
            let b = value(desk, a.next, fold, depth - 1);
            Made {
                made: fold.arithmetic(op, a.made, b.made, desk, a.next, depth - 1),
                next: b.next,
            }
        }
        // The one place that says whether the branch not taken is read: it is, since its end has to be found in any case.
        ValueMark::Choice => {
            let f = formula(desk, at + 1, fold, depth - 1);
            let a = value(desk, f.next, fold, depth - 1);
            let b = value_by_mark(desk, a.next, fold, depth - 1);
            Made {
                made: fold.choice(f.made, a.made, b.made, desk, at + 1, depth - 1),
                next: b.next,
            }
        }
        ValueMark::Wrong => Made {
            made: fold.no_value(),
            next: at,
        },
    }
}

// Of any formula at a place. It calls itself for a negation.
#[cycle(formula_formula_by_mark_value_value_by_mark)]
fn formula_by_mark<F: Fold>(
    desk: &limits::Fields,
    at: usize,
    fold: F,
    depth: usize,
) -> Made<F::OfFormula>
    ensures { result ≡ made (F.of_formula fold) at (read_f depth (drop at desk.now)) }
{
    let fields: &[u16] = desk;
    if depth == 0 {
        return Made {
            made: fold.no_formula(),
            next: at,
        };
    }
    if fields.len() <= at {
        return Made {
            made: fold.no_formula(),
            next: at,
        };
    }
    let mark = terms::formula_mark(fields[at]);
    match mark {
        FormulaMark::Constant(b) => Made {
            made: fold.constant(b),
            next: at + 1,
        },
        FormulaMark::Comparison(op) => {
            let a = value(desk, at + 1, fold, depth - 1);
            let b = value(desk, a.next, fold, depth - 1);
            Made {
                made: fold.comparison(op, a.made, b.made),
                next: b.next,
            }
        }
        FormulaMark::Negation => {
            let f = formula_by_mark(desk, at + 1, fold, depth - 1);
            Made {
                made: fold.negation(f.made),
                next: f.next,
            }
        }
        FormulaMark::Connective(op) => {
            let f = formula(desk, at + 1, fold, depth - 1);
            let g = formula(desk, f.next, fold, depth - 1);
            Made {
                made: fold.connective(op, f.made, g.made),
                next: g.next,
            }
        }
        FormulaMark::Wrong => Made {
            made: fold.no_formula(),
            next: at,
        },
    }
}
