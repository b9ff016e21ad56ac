// Which parameters a term reads, and where two states differ: sets of parameters, told by the binary digits of a number, the first parameter's
// the lowest. A term has one value at two states that do not differ in what it reads (proofs/Alike), and need not be asked again.
// A term is looked at by the reader of the crate term_fold.
#![tactic(auto)]

ghost use Rattle.std.specs.Prelude.{◌≡◌, cond, drop};
ghost use Rattle.terms.specs.Tree.{Value, Formula, num, par, sum_value, arith, choice, no_value, const, compare, negation, join, no_formula};
ghost use Rattle.terms.specs.Read.{read_v, read_f};
ghost use Rattle.reads.specs.Reads.{only, reads_v, reads_f, seen_v, seen_f, differ, is_par};

use term_fold::Fold;
use terms::{Arith, Compare, Join};

const PARAMETERS: u16 = limits::MAX_PARAMETERS as u16;

// What a term reads, and where the next term stands.
#[derive(Clone, Copy)]
pub struct Seen {
    pub reads: u16,
    pub next: usize,
}

// ---- the sets

// The set of one parameter; past the eighth there is none to read.
pub fn only(i: u16) -> u16
    ensures { result ≡ only i }
{
    if i < PARAMETERS { 1 << i as u32 } else { 0 }
}

// A set, unless so. (`(!so).then_some(one).unwrap_or(0)` is no plainer.)
pub fn unless(so: bool, one: u16) -> u16
    ensures { result ≡ cond so 0 one }
{
    if so { 0 } else { one }
}

// In which parameters two states differ.
pub fn differ(v: &limits::Values, w: &limits::Values) -> u16
    ensures { result ≡ differ v.now w.now }
{
    let mut found = 0;
    for i in 0..PARAMETERS {
        found |= unless(terms::parameter(v, i) == terms::parameter(w, i), only(i));
    }
    found
}

// ---- terms

// Whether `1 j` stands at a place of the desk's fields.
pub fn is_parameter(desk: &limits::Fields, at: usize, j: u16) -> bool
    ensures { result ≡ is_par j (read_v 32 (drop at desk.now)).tree }
{
    let fields: &[u16] = desk;
    if fields.len() <= at {
        return false;
    }
    if fields.len() <= at + 1 {
        return false;
    }
    if fields[at] != terms::PARAMETER {
        return false;
    }
    fields[at + 1] == j
}

// What is read: each `1 i` in a term.
#[derive(Clone, Copy)]
struct Parameters;

#[tactic(auto, unfolding(crate::specs::Reads::reads_v, crate::specs::Reads::reads_f))]
impl Fold for Parameters {
    type OfValue = u16;

    type OfFormula = u16;

    ghost of_value = { λ _ t. reads_v t };

    ghost of_formula = { λ _ t. reads_f t };

    fn number(self, _n: u16) -> u16 {
        0
    }

    fn parameter(self, i: u16) -> u16 {
        only(i)
    }

    fn sum_value(self) -> u16 {
        0
    }

    fn arithmetic(
        self,
        _op: Arith,
        a: u16,
        b: u16,
        _desk: &limits::Fields,
        _at: usize,
        _depth: usize,
    ) -> u16 {
        a | b
    }

    fn choice(
        self,
        f: u16,
        a: u16,
        b: u16,
        _desk: &limits::Fields,
        _at: usize,
        _depth: usize,
    ) -> u16 {
        f | (a | b)
    }

    fn no_value(self) -> u16 {
        0
    }

    fn constant(self, _b: bool) -> u16 {
        0
    }

    fn comparison(self, _op: Compare, a: u16, b: u16) -> u16 {
        a | b
    }

    fn negation(self, f: u16) -> u16 {
        f
    }

    fn connective(self, _op: Join, f: u16, g: u16) -> u16 {
        f | g
    }

    fn no_formula(self) -> u16 {
        0
    }
}

// What the value at a place of the desk's fields reads.
pub fn value_reads(desk: &limits::Fields, at: usize, depth: usize) -> Seen
    ensures { result ≡ seen_v at (read_v depth (drop at desk.now)) }
{
    let term = term_fold::value(desk, at, Parameters, depth);
    Seen {
        reads: term.made,
        next: term.next,
    }
}

// What the formula at a place of the desk's fields reads.
pub fn formula_reads(desk: &limits::Fields, at: usize, depth: usize) -> Seen
    ensures { result ≡ seen_f at (read_f depth (drop at desk.now)) }
{
    let term = term_fold::formula(desk, at, Parameters, depth);
    Seen {
        reads: term.made,
        next: term.next,
    }
}
