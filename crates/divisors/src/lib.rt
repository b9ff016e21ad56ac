// What could leave a term without a value, as far as a look at its marks tells: a divisor that could be 0. Wherever that is not so the term
// has a value, for every sum value below 256 (proofs/Divisors), and need not be asked for one.
//
// It is a set of things that could be so, told by a number. Its last ten binary digits are 1 for a parameter being large, of the first eight;
// 2 to 256 for each of these being 0; 512 for anything else, which is always so. Where no parameter is large, some sums are known not to be
// taken modulo 65,536. What is left of the number by 1,024 is 0, or names one term whose being 0 is in the set too: a difference or remainder
// of two leaves. What a formula says is a set too, of things that are not so where it holds, or fails.
//
// The look is made at every term when a text is loaded, by the reader of the crate term_fold. So what is known of a divisor and what a formula
// says of a parameter (`Knowledge`, by the same reader) is asked only where there is a divisor, or a branch that could lack a value.
#![tactic(auto)]

ghost use Rattle.std.specs.Prelude.{◌≡◌, ◌^◌, ◌+◌, ◌<◌, ◌≤◌, drop};
ghost use Rattle.terms.specs.Tree.{Value, Formula, num, par, sum_value, arith, choice, no_value, const, compare, negation, join, no_formula};
ghost use Rattle.terms.specs.Read.{read_v, read_f};
ghost use Rattle.divisors.specs.Divisors.{small_at, so_at, leaf_at, operation_of, term_at, quiet_at, safe_at, term_or, agree, both, either, never, least, only_if, known_if, common, spared, sum_most, leaf_v, zero_v, yes_f, no_f, by_operation, divides_v, divides_f, looked_v, looked_f, known_of, operation_known, guards_of, comparison_guards, join_guards};

use term_fold::Fold;
use terms::{Arith, Compare, Join};

const NOTHING: u32 = 0;

// A parameter being large.
const LARGE: u32 = 1;

const PARAMETERS: u16 = limits::MAX_PARAMETERS as u16;

// Anything else.
pub const OTHER: u32 = 512;

// By this, what is left of a set names its term.
const TERM: u32 = 1024;

// More than any leaf has for its number in a term: a parameter its own, numbers those after the last parameter's.
const LEAVES: u16 = 1024;

const NUMBERS: u16 = LEAVES - PARAMETERS;

// The operations of a term.
const DIFFERENCE: u32 = 1;

const REMAINDER: u32 = 2;

// A term's number: the operation, the first leaf, the second.
const OPERATION: u32 = 1048576;

const FIRST_LEAF: u32 = 1024;

// The least large parameter value.
const LEAST_LARGE: u16 = 32768;

// Where it is not known how large a value can be.
const UNKNOWN: u32 = 65536;

// What could leave a term without a value, and where the next term stands.
#[derive(Clone, Copy)]
pub struct Looked {
    pub divides: u32,
    pub next: usize,
}

// What is known of a value: what could make it 0; the largest that it can be where no parameter is large; the set of its being 0, where it
// has one; its number as a leaf of a term.
#[derive(Clone, Copy)]
struct Known {
    zero: u32,
    most: u32,
    named: u32,
    leaf: u16,
}

// What is not so where a formula holds, and where it fails, and no parameter is large.
#[derive(Clone, Copy)]
struct Guards {
    yes: u32,
    no: u32,
}

// ---- the sets

// Whether no parameter is large.
fn small(params: &limits::Values) -> bool
    ensures { result ≡ small_at params.now }
{
    let mut small = true;
    for i in 0..PARAMETERS {
        small &= terms::parameter(params, i) < LEAST_LARGE;
    }
    small
}

// Parameter i being 0.
fn being_0(i: u16) -> u32
    requires { i < 8 }
    ensures { result ≡ 2 ^ (i + 1) }
{
    2 << i as u32
}

// What is so at these parameter values, terms apart.
pub fn so(params: &limits::Values) -> u32
    ensures { result ≡ so_at params.now }
{
    let mut known = if small(params) { OTHER } else { OTHER | LARGE };
    for i in 0..PARAMETERS {
        if terms::parameter(params, i) == 0 {
            known |= being_0(i);
        }
    }
    known
}

// The value of the leaf with a number.
#[tactic(auto, unfolding(crate::specs::Divisors::leaf_at))]
fn leaf_value(x: u16, params: &limits::Values) -> u16
    ensures { result ≡ leaf_at x params.now }
{
    if x < PARAMETERS {
        return terms::parameter(params, x);
    }
    x - PARAMETERS
}

// The operation of a term.
#[tactic(auto, unfolding(crate::specs::Divisors::operation_of))]
fn operation_of(term: u32) -> Arith
    ensures { result ≡ operation_of term }
{
    if term < REMAINDER * OPERATION {
        Arith::Difference
    } else {
        Arith::Remainder
    }
}

// The value of a term.
#[tactic(auto, unfolding(crate::specs::Divisors::term_at))]
fn term_value(term: u32, params: &limits::Values) -> u16
    ensures { result ≡ term_at term params.now }
{
    let x = leaf_value((term / FIRST_LEAF % FIRST_LEAF) as u16, params);
    let y = leaf_value((term % FIRST_LEAF) as u16, params);
    terms::arith_value(operation_of(term), x, y)
}

// Whether there is no term, or it is not 0.
#[tactic(auto, unfolding(crate::specs::Divisors::quiet_at))]
fn quiet(term: u32, params: &limits::Values) -> bool
    ensures { result ≡ quiet_at term params.now }
{
    if term == 0 {
        return true;
    }
    term_value(term, params) != 0
}

// Whether a term that could lack a value by these surely has one at these parameter values, of which it is known what is so.
#[tactic(auto, unfolding(crate::specs::Divisors::safe_at))]
pub fn safe_where(risks: u32, so: u32, params: &limits::Values) -> bool
    requires { so ≡ so_at params.now }
    ensures { result ≡ safe_at risks params.now }
{
    if risks & so != 0 {
        return false;
    }
    quiet(risks / TERM, params)
}

// The same, where that is not known.
#[tactic(auto, unfolding(crate::specs::Divisors::safe_at, crate::specs::Divisors::quiet_at))]
pub fn safe_at(risks: u32, params: &limits::Values) -> bool
    ensures { result ≡ safe_at risks params.now }
{
    if risks == NOTHING {
        return true;
    }
    safe_where(risks, so(params), params)
}

// The set of a term's being 0; another where one of its leaves has no number.
#[tactic(auto, unfolding(crate::specs::Divisors::term_or))]
fn term_or(otherwise: u32, operation: u32, x: u16, y: u16) -> u32
    requires { operation ≤ 2 }
    ensures { result ≡ term_or otherwise operation x y }
{
    if (x < LEAVES) & (y < LEAVES) {
        return (operation * OPERATION + x as u32 * FIRST_LEAF + y as u32) * TERM;
    }
    otherwise
}

// Whether two sets name no two terms.
#[tactic(auto, unfolding(crate::specs::Divisors::agree))]
fn agree(a: u32, b: u32) -> bool
    ensures { result ≡ agree a b }
{
    (a / TERM == 0) | ((b / TERM == 0) | (a / TERM == b / TERM))
}

// What could leave one or the other of two terms without a value.
pub fn both(a: u32, b: u32) -> u32
    ensures { result ≡ both a b }
{
    if b == NOTHING {
        return a;
    }
    if agree(a, b) {
        return a | b;
    }
    a | b | OTHER
}

// What is not so by one or the other of two formulas.
#[tactic(auto, unfolding(crate::specs::Divisors::either))]
fn either(g: u32, h: u32) -> u32
    ensures { result ≡ either g h }
{
    if agree(g, h) {
        return g | h;
    }
    g | h % TERM
}

// Whether it is nothing, or nothing but a large parameter.
#[tactic(auto, unfolding(crate::specs::Divisors::never))]
fn never(risks: u32) -> bool
    ensures { result ≡ never risks }
{
    risks < 2
}

// What makes one of two values 0 where no parameter is large: the less of them.
#[tactic(auto, unfolding(crate::specs::Divisors::least))]
fn least(a: u32, b: u32) -> u32
    ensures { result ≡ least a b }
{
    if a < b { a | LARGE } else { b | LARGE }
}

// Known only where something is so; else it could be anything.
#[tactic(auto, unfolding(crate::specs::Divisors::only_if))]
fn only_if(so: bool, risks: u32) -> u32
    ensures { result ≡ only_if so risks }
{
    if so { risks } else { OTHER }
}

// Said only where something is so; else nothing is.
#[tactic(auto, unfolding(crate::specs::Divisors::known_if))]
fn known_if(so: bool, guards: u32) -> u32
    ensures { result ≡ known_if so guards }
{
    if so { guards } else { NOTHING }
}

// What two sets have in common; terms only where they are the same.
#[tactic(auto, unfolding(crate::specs::Divisors::common))]
fn common(risks: u32, guards: u32) -> u32
    ensures { result ≡ common risks guards }
{
    if risks / TERM == guards / TERM {
        return risks & guards;
    }
    risks & guards % TERM
}

// Without what is known not to be so where no parameter is large.
#[tactic(auto, unfolding(crate::specs::Divisors::spared))]
fn spared(risks: u32, guards: u32) -> u32
    ensures { result ≡ spared risks guards }
{
    let known = common(risks, guards);
    if known == 0 {
        return risks;
    }
    (risks - known) | LARGE
}

// ---- what is known of a value, and what a formula says

// Where nothing is known, as of what is no value.
const NOTHING_KNOWN: Known = Known {
    zero: OTHER,
    most: UNKNOWN,
    named: NOTHING,
    leaf: LEAVES,
};

// Where a formula says nothing of a parameter.
const NO_GUARDS: Guards = Guards {
    yes: NOTHING,
    no: NOTHING,
};

// The number of a number as a leaf.
#[tactic(auto, unfolding(crate::specs::Divisors::leaf_v))]
fn number_leaf(n: u16) -> u16
    ensures { result ≡ leaf_v (num n) }
{
    if n < NUMBERS { n + PARAMETERS } else { LEAVES }
}

// The largest that a sum can be.
#[tactic(auto, unfolding(crate::specs::Divisors::sum_most))]
fn sum_most(a: u32, b: u32) -> u32
    ensures { result ≡ sum_most a b }
{
    if UNKNOWN <= a {
        return UNKNOWN;
    }
    if UNKNOWN - a <= b {
        return UNKNOWN;
    }
    a + b
}

// Of an operation.
fn operation(op: Arith, a: Known, b: Known) -> Known
    ensures { result ≡ operation_known op a b }
{
    match op {
        Arith::Sum => {
            let most = sum_most(a.most, b.most);
            Known {
                zero: only_if(most < UNKNOWN, least(a.zero, b.zero)),
                most: most,
                named: NOTHING,
                leaf: LEAVES,
            }
        }
        Arith::Difference => Known {
            zero: term_or(OTHER, DIFFERENCE, a.leaf, b.leaf),
            most: UNKNOWN,
            named: term_or(NOTHING, DIFFERENCE, a.leaf, b.leaf),
            leaf: LEAVES,
        },
        Arith::Remainder => Known {
            zero: term_or(OTHER, REMAINDER, a.leaf, b.leaf),
            most: a.most,
            named: term_or(NOTHING, REMAINDER, a.leaf, b.leaf),
            leaf: LEAVES,
        },
    }
}

// What could make a choice 0, or leave it without a value, by what could do so to its branches, each spared what the formula says.
fn branches(a: u32, b: u32, formula: Guards) -> u32
    ensures { result ≡ both (spared a formula.yes) (spared b formula.no) }
{
    both(spared(a, formula.yes), spared(b, formula.no))
}

// Of a comparison.
fn comparison(op: Compare, a: Known, b: Known) -> Guards
    ensures { result ≡ comparison_guards op a b }
{
    match op {
        Compare::Equal => Guards {
            yes: NOTHING,
            no: either(
                known_if(b.most == 0, a.named),
                known_if(a.most == 0, b.named),
            ),
        },
        Compare::Less => Guards {
            yes: b.named,
            no: known_if(never(b.zero), a.named),
        },
    }
}

// Of two formulas, joined.
fn joined(op: Join, f: Guards, g: Guards) -> Guards
    ensures { result ≡ join_guards op f g }
{
    match op {
        Join::And => Guards {
            yes: either(f.yes, g.yes),
            no: NOTHING,
        },
        Join::Or => Guards {
            yes: NOTHING,
            no: either(f.no, g.no),
        },
    }
}

// What is known of values, and what formulas say.
#[derive(Clone, Copy)]
struct Knowledge;

#[tactic(auto, unfolding(crate::specs::Divisors::zero_v, crate::specs::Divisors::most_v, crate::specs::Divisors::named_v, crate::specs::Divisors::leaf_v, crate::specs::Divisors::yes_f, crate::specs::Divisors::by_parameter, crate::specs::Divisors::parameter_most, crate::specs::Divisors::only_if, crate::specs::Divisors::known_if))]
impl Fold for Knowledge {
    type OfValue = Known;

    type OfFormula = Guards;

    ghost of_value = { λ _ t. known_of t };

    ghost of_formula = { λ _ t. guards_of t };

    fn number(self, n: u16) -> Known {
        if n == 0 {
            return Known {
                zero: OTHER,
                most: 0,
                named: NOTHING,
                leaf: number_leaf(n),
            };
        }
        Known {
            zero: NOTHING,
            most: n as u32,
            named: NOTHING,
            leaf: number_leaf(n),
        }
    }

    fn parameter(self, i: u16) -> Known {
        if PARAMETERS <= i {
            return NOTHING_KNOWN;
        }
        let zero = being_0(i);
        Known {
            zero,
            most: LEAST_LARGE as u32 - 1,
            named: zero,
            leaf: i,
        }
    }

    fn sum_value(self) -> Known {
        Known {
            zero: OTHER,
            most: limits::MAX_SPAN as u32 - 1,
            named: NOTHING,
            leaf: LEAVES,
        }
    }

    fn arithmetic(
        self,
        op: Arith,
        a: Known,
        b: Known,
        _desk: &limits::Fields,
        _at: usize,
        _depth: usize,
    ) -> Known {
        operation(op, a, b)
    }

    fn choice(
        self,
        f: Guards,
        a: Known,
        b: Known,
        _desk: &limits::Fields,
        _at: usize,
        _depth: usize,
    ) -> Known {
        Known {
            zero: branches(a.zero, b.zero, f),
            most: a.most.max(b.most),
            named: NOTHING,
            leaf: LEAVES,
        }
    }

    fn no_value(self) -> Known {
        NOTHING_KNOWN
    }

    fn constant(self, _b: bool) -> Guards {
        NO_GUARDS
    }

    fn comparison(self, op: Compare, a: Known, b: Known) -> Guards {
        comparison(op, a, b)
    }

    fn negation(self, f: Guards) -> Guards {
        Guards {
            yes: f.no,
            no: f.yes,
        }
    }

    fn connective(self, op: Join, f: Guards, g: Guards) -> Guards {
        joined(op, f, g)
    }

    fn no_formula(self) -> Guards {
        NO_GUARDS
    }
}

// ---- what could leave a term without a value

// What could leave an operation without a value, whose second value stands at a place.
fn divisor(op: Arith, desk: &limits::Fields, at: usize, depth: usize) -> u32
    ensures { result ≡ by_operation op (zero_v (read_v depth (drop at desk.now)).tree) }
{
    match op {
        Arith::Sum => NOTHING,
        Arith::Difference => NOTHING,
        Arith::Remainder => {
            let b = term_fold::value(desk, at, Knowledge, depth);
            b.made.zero
        }
    }
}

// What could leave a branch of a choice without a value, a the first and b the second, where the formula at a place chooses.
fn either_branch(a: u32, b: u32, desk: &limits::Fields, at: usize, depth: usize) -> u32
    ensures { result ≡ both (spared a (yes_f (read_f depth (drop at desk.now)).tree)) (spared b (no_f (read_f depth (drop at desk.now)).tree)) }
{
    if a == NOTHING {
        if b == NOTHING {
            return NOTHING;
        }
    }
    let f = term_fold::formula(desk, at, Knowledge, depth);
    branches(a, b, f.made)
}

// What could leave a term without a value, by what could do so to its parts.
#[derive(Clone, Copy)]
struct Divisions;

#[tactic(auto, unfolding(crate::specs::Divisors::divides_v, crate::specs::Divisors::divides_f))]
impl Fold for Divisions {
    type OfValue = u32;

    type OfFormula = u32;

    ghost of_value = { λ _ t. divides_v t };

    ghost of_formula = { λ _ t. divides_f t };

    fn number(self, _n: u16) -> u32 {
        NOTHING
    }

    fn parameter(self, _i: u16) -> u32 {
        NOTHING
    }

    fn sum_value(self) -> u32 {
        NOTHING
    }

    fn arithmetic(
        self,
        op: Arith,
        a: u32,
        b: u32,
        desk: &limits::Fields,
        at: usize,
        depth: usize,
    ) -> u32 {
        both(both(a, b), divisor(op, desk, at, depth))
    }

    fn choice(self, f: u32, a: u32, b: u32, desk: &limits::Fields, at: usize, depth: usize) -> u32 {
        both(f, either_branch(a, b, desk, at, depth))
    }

    fn no_value(self) -> u32 {
        OTHER
    }

    fn constant(self, _b: bool) -> u32 {
        NOTHING
    }

    fn comparison(self, _op: Compare, a: u32, b: u32) -> u32 {
        both(a, b)
    }

    fn negation(self, f: u32) -> u32 {
        f
    }

    fn connective(self, _op: Join, f: u32, g: u32) -> u32 {
        both(f, g)
    }

    fn no_formula(self) -> u32 {
        OTHER
    }
}

// Of the value at a place of the desk's fields.
pub fn value_divides(desk: &limits::Fields, at: usize, depth: usize) -> Looked
    ensures { result ≡ looked_v at (read_v depth (drop at desk.now)) }
{
    let term = term_fold::value(desk, at, Divisions, depth);
    Looked {
        divides: term.made,
        next: term.next,
    }
}

// Of the formula at a place of the desk's fields.
pub fn formula_divides(desk: &limits::Fields, at: usize, depth: usize) -> Looked
    ensures { result ≡ looked_f at (read_f depth (drop at desk.now)) }
{
    let term = term_fold::formula(desk, at, Divisions, depth);
    Looked {
        divides: term.made,
        next: term.next,
    }
}
