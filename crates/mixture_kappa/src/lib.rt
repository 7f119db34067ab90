// The settings of a mixture fit, and the numbers of its groups that no work area is needed for (vmf.rs, Kappa and
// movmf_once; document 01, 'Leaves, settings, fit', 'Mixture' and 'Choosing the number of groups'): how many parameters
// k groups have, the log normalizer of a concentration, and the log coefficient of a group.
#![tactic(auto)]

ghost use Rattle.std.specs.Prelude.{◌≡◌, ◌*◌, ◌≤◌};
ghost use Rattle.std.specs.Float.{binary64};
ghost use Rattle.std.specs.Float.Ieee.{add};
ghost use Rattle.float.specs.Arithmetic.{max_of};
ghost use Rattle.logarithm.specs.Logarithm.{ln_of};
ghost use Rattle.mixture_kappa.specs.Kappas.{parameters_of};
ghost use Rattle.mixture_kappa.specs.Groups.{weight_floor, log_norm_of};

use bessel::Order;

// How a mixture estimates its concentrations: one for each group, or one for all.
#[derive(Clone, Copy, Debug, PartialEq, Eq)]
pub enum Kappa {
    Free,
    Shared,
}

// The round limit, the seed and the Kappa of a fit.
#[derive(Clone, Copy, Debug, PartialEq, Eq)]
pub struct Settings {
    pub rounds: usize,
    pub seed: u64,
    pub kappa: Kappa,
}

// The number of parameters that k groups have.
pub fn parameters(kappa: Kappa, k: usize, d: usize) -> usize
    requires { (1 ≤ k) × (k ≤ 64) × (k * d ≤ 16384) }
    ensures { result ≡ parameters_of kappa k d }
{
    match kappa {
        Kappa::Free => k * d + k - 1,
        Kappa::Shared => k * d,
    }
}

// The log normalizer of a concentration, from the order of its dimension.
pub fn log_norm_from(kappa: f64, order: Order) -> f64
    ensures { result ≡ log_norm_of order.d kappa }
{
    order.log_norm(float::max(kappa, 1e-8))
}

// The log coefficient of a group, ln weight + log normalizer; `norm` is the log normalizer.
pub fn log_coefficient(weight: f64, norm: f64) -> f64
    ensures { result ≡ add binary64 (ln_of (max_of weight weight_floor)) norm }
{
    logarithm::ln(float::max(weight, 1e-300)) + norm
}
