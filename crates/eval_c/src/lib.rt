// The evaluator for C, so that bench/terms.sh can time it and tools/inlined.sh can look at what the compiler made of it. No part of the
// product stands on it.
#![tactic(auto)]

ghost use Rattle.std.specs.Prelude.{◌≡◌, drop};
ghost use Rattle.terms.specs.Tree.{eval_v, eval_f};
ghost use Rattle.terms.specs.Read.{read_v, read_f};

// The value of the term at a place of the desk's fields.
#[unsafe(no_mangle)]
pub extern "C" fn bench_value(
    desk: &limits::Fields,
    at: usize,
    params: &limits::Values,
    sum: u16,
) -> u16
    ensures { result ≡ eval_v (read_v 32 (drop at desk.now)).tree params.now sum }
{
    let r = eval::value(desk, at, params, sum, limits::MAX_DEPTH);
    r.value
}

// Whether the formula at a place of the desk's fields holds.
#[unsafe(no_mangle)]
pub extern "C" fn bench_formula(
    desk: &limits::Fields,
    at: usize,
    params: &limits::Values,
    sum: u16,
) -> bool
    ensures { result ≡ eval_f (read_f 32 (drop at desk.now)).tree params.now sum }
{
    let r = eval::formula(desk, at, params, sum, limits::MAX_DEPTH);
    r.holds
}
