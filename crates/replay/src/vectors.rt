// Cases of vectors: products, norms, unit vectors, argmax, argmin and picks. The answer is at word `ins`.
ghost use Rattle.std.specs.Prelude.{◌≡◌};

use super::case::Case;
use super::outputs;
use words::plus;

// Whether the test holds of the n words from word `from` on.
fn holds<F: FnOnce(&[f64]) -> bool>(case: Case, from: usize, n: usize, test: F) -> bool
    requires { F.IsAlwaysCallable test }
{
    let mut v = [0.0; 256];
    let m = words::load(&mut v, case.words, from, n, n);
    test(&v[..m])
}

// Two lengths and the two vectors.
pub(crate) fn dot_agrees(case: Case) -> bool {
    let n = case.word(0) as usize;
    let m = case.word(1) as usize;
    let mut v = [0.0; 256];
    let mut w = [0.0; 256];
    let a = words::load(&mut v, case.words, 2, n, n);
    let b = words::load(&mut w, case.words, plus(2, n), m, m);
    case.answer_is(vector::dot(&v[..a], &w[..b]))
}

pub(crate) fn norm_agrees(case: Case) -> bool {
    holds(case, 0, case.ins, |v| case.answer_is(vector::norm(v)))
}

// Whether v's unit vector has the patterns of the words after v's.
fn unit_same(v: &[f64], case: Case) -> bool {
    let mut to = [0.0; 256];
    if v.len() > to.len() {
        return false;
    }
    let unit = &mut to[..v.len()];
    vector::unit(unit, v);
    outputs::rows_agree(unit, v.len(), case, outputs::words_at(v.len())).is_some()
}

pub(crate) fn unit_agrees(case: Case) -> bool {
    holds(case, 0, case.ins, |v| unit_same(v, case))
}

pub(crate) fn argmax_agrees(case: Case) -> bool {
    holds(
        case,
        0,
        case.ins,
        |v| pick::argmax(v) as u64 == case.word(case.ins),
    )
}

pub(crate) fn argmin_agrees(case: Case) -> bool {
    holds(
        case,
        0,
        case.ins,
        |v| pick::argmin(v) as u64 == case.word(case.ins),
    )
}

// Whether the pick among the weights v gives the place in word `ins` and leaves the state in the next; word 0 is the
// state.
fn pick_same(v: &[f64], case: Case) -> bool {
    let p = pick::weighted_pick(v, case.word(0));
    p.index as u64 == case.word(case.ins) && p.generator == case.word(plus(case.ins, 1))
}

// The generator's state stands before the weights.
pub(crate) fn pick_agrees(case: Case) -> bool {
    case.ins >= 1 && holds(case, 1, case.ins - 1, |v| pick_same(v, case))
}
