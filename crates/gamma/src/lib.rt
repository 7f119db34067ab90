// ln_gamma of vmf.rs (document 01, 'Concentration and normalizer'). Every f64 is taken, NaN and infinities included.
#![tactic(auto)]

ghost use Rattle.std.specs.Prelude.{◌≡◌};
ghost use Rattle.gamma.specs.Gamma.{lanczos_from, lanczos, lanczos_terms, ln_gamma_of};

// The logarithm of TAU, document 01's.
pub const LN_TAU: f64 = 1.8378770664093453;

// The constants of vmf.rs at x.
fn lanczos_sum(x: f64) -> f64
    ensures { result ≡ lanczos_from x lanczos 1 lanczos_terms }
{
    let a = 0.9999999999998099;
    let a = a + 676.5203681218851 / (x + 1.0);
    let a = a + -1259.1392167224028 / (x + 2.0);
    let a = a + 771.3234287776531 / (x + 3.0);
    let a = a + -176.6150291621406 / (x + 4.0);
    let a = a + 12.507343278686905 / (x + 5.0);
    let a = a + -0.13857109526572012 / (x + 6.0);
    let a = a + 9.984369578019572e-6 / (x + 7.0);
    a + 1.5056327351493116e-7 / (x + 8.0)
}

// ln Gamma(y), by the Lanczos approximation of vmf.rs.
pub fn ln_gamma(y: f64) -> f64
    ensures { result ≡ ln_gamma_of y }
{
    let x = y - 1.0;
    let t = x + 7.0 + 0.5;
    let a = lanczos_sum(x);
    0.5 * LN_TAU + (x + 0.5) * logarithm::ln(t) - t + logarithm::ln(a)
}
