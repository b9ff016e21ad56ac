// The conjuncts in front of a formula: of `15 f g` f is one, and those in front of g are more. They are evaluated one after the other up
// to the first that fails, so that a state which the first of them rules out costs no more than that one. What each function computes
// is in specs/Conjuncts; every function answers any fields.
#![tactic(auto)]

ghost use Rattle.std.specs.Prelude.{◌≡◌, drop};
ghost use Rattle.terms.specs.Tree.{eval_f};
ghost use Rattle.terms.specs.Read.{read_f};
ghost use Rattle.conjuncts.specs.Conjuncts.{front_of, conjunct_in, guard_in};

// The conjunct in front of a formula: whether it holds; where the rest stands, and how deep that may be.
#[derive(Clone, Copy)]
pub struct Conjunct {
    pub holds: bool,
    pub next: usize,
    pub depth: usize,
}

// Whether the conjuncts in front of a condition hold; where the rest of it stands, and how deep that may be.
#[derive(Clone, Copy)]
pub struct Guarded {
    pub holds: bool,
    pub at: usize,
    pub depth: usize,
}

// The mark of a conjunction.
const AND: u16 = 15;

// No formula has more conjuncts in front, each being one deeper.
const MOST: u16 = limits::MAX_DEPTH as u16;

// How many conjuncts in front of the condition at a place do not read the sum value.
pub fn front(desk: &limits::Fields, at: usize) -> u16
    ensures { result ≡ front_of desk.now at 32 }
{
    let fields: &[u16] = desk;
    let mut place = at;
    for n in 0..MOST {
        let depth = limits::MAX_DEPTH - n as usize;
        if fields.len() <= place {
            return n;
        }
        if fields[place] != AND {
            return n;
        }
        let left = sum_free::formula_sum_free(desk, place + 1, depth - 1);
        if !left.free {
            return n;
        }
        place = left.next;
    }
    MOST
}

// The first conjunct of the formula at a place, if there is one: whether it holds.
fn first_conjunct(
    desk: &limits::Fields,
    at: usize,
    depth: usize,
    v: &limits::Values,
    sum: u16,
) -> Option<Conjunct>
    ensures { result ≡ conjunct_in desk.now v.now sum at depth }
{
    let fields: &[u16] = desk;
    if depth == 0 {
        return None;
    }
    if fields.len() <= at {
        return None;
    }
    if fields[at] != AND {
        return None;
    }
    let left = eval::formula(desk, at + 1, v, sum, depth - 1);
    Some(Conjunct {
        holds: left.holds,
        next: left.next,
        depth: depth - 1,
    })
}

// Whether the first n conjuncts of the condition at a place hold.
pub fn guard(fields: &limits::Fields, at: usize, v: &limits::Values, sum: u16, n: u16) -> Guarded
    ensures { result ≡ guard_in fields.now v.now sum n at 32 }
{
    let mut place = at;
    let mut depth = limits::MAX_DEPTH;
    for _ in 0..n {
        let left = match first_conjunct(fields, place, depth, v, sum) {
            Some(left) => left,
            None => {
                return Guarded {
                    holds: true,
                    at: place,
                    depth,
                };
            }
        };
        if !left.holds {
            return Guarded {
                holds: false,
                at: place,
                depth,
            };
        }
        place = left.next;
        depth = left.depth;
    }
    Guarded {
        holds: true,
        at: place,
        depth,
    }
}

// Whether the formula at a place holds. Of a conjunction no more is evaluated than up to the first conjunct that fails.
pub fn holds(fields: &limits::Fields, at: usize, v: &limits::Values, sum: u16) -> bool
    ensures { result ≡ eval_f (read_f 32 (drop at fields.now)).tree v.now sum }
{
    let front = guard(fields, at, v, sum, MOST);
    if !front.holds {
        return false;
    }
    let rest = eval::formula(fields, front.at, v, sum, front.depth);
    rest.holds
}
