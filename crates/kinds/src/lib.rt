// The table of kinds (01, "Design text"; 02, order 1): each entry stands here once for code, and once in specs/Kinds for definitions. Code
// is proved against definitions, so an entry that moves on one side alone is refused.
#![tactic(auto)]

ghost use Rattle.std.specs.Prelude.{◌≡◌};
ghost use Rattle.limits.specs.Limits.{max_parameters, max_rows};
ghost use Rattle.kinds.specs.Kinds.{entry, whole_text, no_entry, entry_in, has_terms, own_of};
ghost use Rattle.kinds.specs.declared.Role.TheVariants.{Parameter, Row, Other};
ghost use Rattle.kinds.specs.declared.Follow.TheVariants.{Nothing, RowTerms};
ghost use Rattle.kinds.specs.declared.Side.TheVariants.{Implementation};

// What a kind of line is: its rank in the order of kinds, the fewest and the most lines of that rank, how many fields stand before the
// terms, the kind included, what these say, what terms follow, and whose parameters they read.
#[derive(Clone, Copy)]
pub struct Entry {
    pub rank: usize,
    pub fewest: usize,
    pub most: usize,
    pub fixed: usize,
    pub role: Role,
    pub terms: Follow,
    pub side: Side,
}

// What the fields before the terms say: size and initial value, action and span, or nothing but the kind.
#[derive(Clone, Copy)]
pub enum Role {
    Parameter,
    Row,
    Other,
}

// What terms follow: none; condition, data and a next value for each parameter; a formula; a value for each kind 2 line; a value; a
// formula for each internal row.
#[derive(Clone, Copy)]
pub enum Follow {
    Nothing,
    RowTerms,
    Formula,
    Mapped,
    Value,
    Marks,
}

// Whose parameters the terms read.
#[derive(Clone, Copy)]
pub enum Side {
    Implementation,
    Specification,
}

// The highest number of a kind, and how many ranks there are, from 0 on: 0 is that of no kind.
pub const LAST_KIND: u16 = 8;

pub const RANKS: usize = 9;

// The entry of a kind.
#[tactic(auto, unfolding(crate::specs::Kinds::entry_in))]
pub fn entry_at(kind: u16) -> Entry
    ensures { result ≡ entry_in whole_text kind }
{
    match kind {
        1 => parameter(1, Side::Implementation),
        2 => parameter(2, Side::Specification),
        3 => row(3, Side::Implementation),
        4 => row(4, Side::Specification),
        5 => single(5, 1, Follow::Formula),
        6 => single(6, 1, Follow::Mapped),
        7 => single(7, 1, Follow::Value),
        8 => single(8, 0, Follow::Marks),
        _ => none(),
    }
}

// Size and initial value.
fn parameter(rank: usize, side: Side) -> Entry
    ensures { result ≡ entry rank 1 max_parameters 3 Parameter Nothing side }
{
    Entry {
        rank,
        fewest: 1,
        most: limits::MAX_PARAMETERS,
        fixed: 3,
        role: Role::Parameter,
        terms: Follow::Nothing,
        side,
    }
}

// Action and span, then the terms of a row.
fn row(rank: usize, side: Side) -> Entry
    ensures { result ≡ entry rank 0 max_rows 3 Row RowTerms side }
{
    Entry {
        rank,
        fewest: 0,
        most: limits::MAX_ROWS,
        fixed: 3,
        role: Role::Row,
        terms: Follow::RowTerms,
        side,
    }
}

// One line, or at most one, with nothing but terms, over the implementation's parameters.
fn single(rank: usize, fewest: usize, terms: Follow) -> Entry
    ensures { result ≡ entry rank fewest 1 1 Other terms Implementation }
{
    Entry {
        rank,
        fewest,
        most: 1,
        fixed: 1,
        role: Role::Other,
        terms,
        side: Side::Implementation,
    }
}

// No kind.
fn none() -> Entry
    ensures { result ≡ no_entry }
{
    Entry {
        rank: 0,
        fewest: 0,
        most: 0,
        fixed: 0,
        role: Role::Other,
        terms: Follow::Nothing,
        side: Side::Implementation,
    }
}

// Whether terms follow at all.
pub fn has_terms(terms: Follow) -> bool
    ensures { result ≡ has_terms terms }
{
    !matches!(terms, Follow::Nothing)
}

// How many parameters a side has, where the implementation has n and the specification m.
pub fn own(side: Side, n: u16, m: u16) -> u16
    ensures { result ≡ own_of side n m }
{
    match side {
        Side::Implementation => n,
        Side::Specification => m,
    }
}
