// The range of numbers of groups, a number's score, and the choice (vmf.rs, movmf_auto_with; document 01, 'Choosing the
// number of groups').
#![tactic(auto)]

ghost use Rattle.std.specs.Prelude.{◌≡◌, ◌*◌, ◌≤◌};
ghost use Rattle.std.specs.Float.Ieee.{lt};
ghost use Rattle.auto_choice.specs.Choice.{highest, lowest, score_by, held_score};

// max(1, min(k_max, m)).
pub fn highest_number(k_max: usize, m: usize) -> usize
    ensures { result ≡ highest k_max m }
{
    k_max.min(m).max(1)
}

// min(max(k_min, 1), hi).
pub fn lowest_number(k_min: usize, hi: usize) -> usize
    ensures { result ≡ lowest k_min hi }
{
    k_min.max(1).min(hi)
}

// A number of groups with its score. The choice is such a number, or none.
#[derive(Clone, Copy, Debug, PartialEq)]
pub struct Scored {
    pub k: usize,
    pub score: f64,
}

// The score held, +infinity where there is none.
fn held_score(c: Option<Scored>) -> f64
    ensures { result ≡ held_score c }
{
    match c {
        Some(n) => n.score,
        None => 1.0 / 0.0,
    }
}

// The score of k groups; ln_total is the logarithm of the whole weight.
pub fn score_at(kappa: mixture_kappa::Kappa, k: usize, d: usize, loglik: f64, ln_total: f64) -> f64
    requires { (1 ≤ k) × (k ≤ 64) × (k * d ≤ 16384) }
    ensures { result ≡ score_by kappa k d loglik ln_total }
{
    -2.0 * loglik + mixture_kappa::parameters(kappa, k, d) as f64 * ln_total
}

// Whether a score beats the one held; NaN beats nothing.
pub fn beats(score: f64, c: Option<Scored>) -> bool
    ensures { result ≡ lt score (held_score c) }
{
    score < held_score(c)
}
