// The table of ln_gamma at d / 2, from which the series of the normalizer starts (document 02, #105).
#![tactic(auto)]

ghost use Rattle.std.specs.Prelude.{◌≡◌, ◌≤◌};
ghost use Rattle.gamma.specs.Gamma.{ln_gamma_half};

mod entries;

use entries::LN_GAMMA;

// ln_gamma(d / 2).
pub fn ln_gamma_half(d: usize) -> f64
    requires { (1 ≤ d) × (d ≤ 256) }
    ensures { result ≡ ln_gamma_half d }
{
    LN_GAMMA[d - 1]
}
