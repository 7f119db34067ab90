// Cases of arithmetic, of the generator and of the concentrations.
ghost use Rattle.std.specs.Prelude.{◌≡◌};
ghost use Rattle.bessel.specs.Concentration.{Dimension};
ghost use Rattle.rng.specs.Drawn.{drawn, drawn_f64};

use super::case::Case;
use words::Operation;

// An operation with up to three numbers; by the number of words in, after which the answer stands.
pub(crate) fn arithmetic_agrees(operation: Operation, case: Case) -> bool {
    let x = words::arithmetic(operation, case.number(0), case.number(1), case.number(2));
    case.answer_is(x)
}

// The 64 draws of a seed, one after the other.
pub(crate) fn draws_agree(case: Case) -> bool {
    let mut state = case.word(0);
    for i in 1..65 {
        let d = rng::draw::<u64>(state);
        if d.out != case.word(i) {
            return false;
        }
        state = d.state;
    }
    true
}

// A draw, as a whole number and as an f64.
#[derive(Clone, Copy)]
struct Draw {
    number: u64,
    fraction: f64,
}

// The first draw of a seed, as each: of two generators that are made here and lent.
fn draw_lent(seed: u64) -> Draw
    ensures { (result.number ≡ (drawn seed).out) × (result.fraction ≡ (drawn_f64 seed).out) }
{
    let mut g = rng::SplitMix64::new(seed);
    let number = rng::next_u64(&mut g);
    let mut h = rng::SplitMix64::new(seed);
    let fraction = rng::next_f64(&mut h);
    Draw { number, fraction }
}

pub(crate) fn draw_agrees(case: Case) -> bool {
    let d = draw_lent(case.word(0));
    d.number == case.word(1) && case.is_number(d.fraction, 2)
}

// A product modulo 2^64.
pub(crate) fn product_agrees(case: Case) -> bool {
    rng::wrapping_mul_u64(case.word(0), case.word(1)) == case.word(2)
}

pub(crate) fn restart_seed_agrees(case: Case) -> bool {
    rng::restart_seed(case.word(0), case.word(1)) == case.word(2)
}

// Word j of a case as a dimension: from 1 to 256, the nearest to it.
fn dimension(case: Case, j: usize) -> usize
    ensures { Dimension result }
{
    (case.word(j) as usize).clamp(1, 256)
}

pub(crate) fn ln_gamma_agrees(case: Case) -> bool {
    case.answer_is(gamma::ln_gamma(case.number(0)))
}

pub(crate) fn ln_gamma_half_agrees(case: Case) -> bool {
    case.answer_is(gamma_table::ln_gamma_half(dimension(case, 0)))
}

pub(crate) fn log_vmf_norm_agrees(case: Case) -> bool {
    let norm = bessel::log_vmf_norm(dimension(case, 0), case.number(1));
    case.answer_is(norm)
}

pub(crate) fn estimate_kappa_agrees(case: Case) -> bool {
    let kappa = bessel::estimate_kappa(case.number(0), dimension(case, 1));
    case.answer_is(kappa)
}

pub(crate) fn kappa_max_agrees(case: Case) -> bool {
    case.answer_is(bessel::kappa_max(case.word(0) as usize))
}
