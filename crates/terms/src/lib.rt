// The marks of terms and the operations on values and formulas: what evaluating and checking have in common.
//
// What a term is, how it is read from fields and what it evaluates to are definitions, in specs/. The evaluation of a term is in the
// crates eval and has_value, the check of one in term_check.
#![tactic(auto)]

ghost use Rattle.std.specs.Prelude.{◌≡◌, slice_index};
ghost use Rattle.terms.specs.Mark.{value_mark, formula_mark};
ghost use Rattle.terms.specs.Tree.{arith_of, arith_has, compare_of, join_of};

// The operations of the value marks 3, 4 and 5.
#[derive(Clone, Copy)]
pub enum Arith {
    Sum,
    Difference,
    Remainder,
}

// The comparisons of the formula marks 12 and 13.
#[derive(Clone, Copy)]
pub enum Compare {
    Equal,
    Less,
}

// The connectives of the formula marks 15 and 16.
#[derive(Clone, Copy)]
pub enum Join {
    And,
    Or,
}

// What a value begins with.
#[derive(Clone, Copy)]
pub enum ValueMark {
    Number,
    Parameter,
    SumValue,
    Arithmetic(Arith),
    Choice,
    Wrong,
}

// What a formula begins with.
#[derive(Clone, Copy)]
pub enum FormulaMark {
    Constant(bool),
    Comparison(Compare),
    Negation,
    Connective(Join),
    Wrong,
}

// The marks of leaves.
pub const NUMBER: u16 = 0;

pub const PARAMETER: u16 = 1;

pub const SUM_VALUE: u16 = 2;

pub const TRUE: u16 = 10;

pub const FALSE: u16 = 11;

// The mark that a value's first field is.
pub fn value_mark(m: u16) -> ValueMark
    ensures { result ≡ value_mark m }
{
    match m {
        NUMBER => ValueMark::Number,
        PARAMETER => ValueMark::Parameter,
        SUM_VALUE => ValueMark::SumValue,
        3 => ValueMark::Arithmetic(Arith::Sum),
        4 => ValueMark::Arithmetic(Arith::Difference),
        5 => ValueMark::Arithmetic(Arith::Remainder),
        6 => ValueMark::Choice,
        _ => ValueMark::Wrong,
    }
}

// The mark that a formula's first field is.
pub fn formula_mark(m: u16) -> FormulaMark
    ensures { result ≡ formula_mark m }
{
    match m {
        TRUE => FormulaMark::Constant(true),
        FALSE => FormulaMark::Constant(false),
        12 => FormulaMark::Comparison(Compare::Equal),
        13 => FormulaMark::Comparison(Compare::Less),
        14 => FormulaMark::Negation,
        15 => FormulaMark::Connective(Join::And),
        16 => FormulaMark::Connective(Join::Or),
        _ => FormulaMark::Wrong,
    }
}

// The field at a place, and 0 past the end.
pub fn field(fields: &[u16], at: usize) -> u16
    ensures { result ≡ slice_index fields.now at }
{
    if at < fields.len() { fields[at] } else { 0 }
}

// The value of a parameter, counted from 0, and 0 past the last.
pub fn parameter(params: &[u16], i: u16) -> u16
    ensures { result ≡ slice_index params.now i }
{
    field(params, i as usize)
}

// Sum and difference modulo 65,536, and the remainder; by zero, where there is none, some number.
pub fn arith_value(op: Arith, x: u16, y: u16) -> u16
    ensures { result ≡ arith_of op x y }
{
    match op {
        Arith::Sum => std::num::wrapping_add_u16(x, y),
        Arith::Difference => std::num::wrapping_sub_u16(x, y),
        Arith::Remainder => if y == 0 { x } else { x % y },
    }
}

// Whether the operation has a value, by its second number: the remainder by zero has none.
pub fn arith_has(op: Arith, y: u16) -> bool
    ensures { result ≡ arith_has op y }
{
    match op {
        Arith::Sum => true,
        Arith::Difference => true,
        Arith::Remainder => y != 0,
    }
}

// Whether the first number is equal to the second, or less.
pub fn compare_holds(op: Compare, x: u16, y: u16) -> bool
    ensures { result ≡ compare_of op x y }
{
    match op {
        Compare::Equal => x == y,
        Compare::Less => x < y,
    }
}

// Whether both hold, or at least one.
pub fn join_holds(op: Join, x: bool, y: bool) -> bool
    ensures { result ≡ join_of op x y }
{
    match op {
        Join::And => x & y,
        Join::Or => x | y,
    }
}
