// The log normalizing constant of vmf.rs and the estimate of a concentration (document 01, 'Concentration and
// normalizer'). Every f64 is taken, NaN and infinities included; a dimension is 1 to 256.
#![tactic(auto)]

ghost use Rattle.std.specs.Prelude.{◌≡◌};
ghost use Rattle.std.specs.Float.{binary64};
ghost use Rattle.std.specs.Float.Ieee.{add};
ghost use Rattle.float.specs.Arithmetic.{number};
ghost use Rattle.gamma.specs.Gamma.{ln_gamma_of};
ghost use Rattle.bessel.specs.Normalizer.{terms_of, asymptotic_of, term_after, with_term, ends_at, peak_sum_of};
ghost use Rattle.bessel.specs.Normalizer.{series_of, log_iv_of, log_vmf_norm_of};
ghost use Rattle.bessel.specs.Concentration.{Dimension, kappa_max, Estimated};
ghost use Rattle.bessel.specs.Start.{StartOf};

// The three terms of DLMF 10.41.3 at p = 1 / w.
fn asymptotic_terms(nu: f64, w: f64) -> f64
    ensures { result ≡ terms_of nu w }
{
    let p = 1.0 / w;
    let p2 = p * p;
    let p3 = p * p * p;
    let u1 = (3.0 * p - 5.0 * p3) / 24.0;
    let u2 = (81.0 * p2 - 462.0 * p2 * p2 + 385.0 * p3 * p3) / 1152.0;
    1.0 + u1 / nu + u2 / (nu * nu)
}

// log I_nu(kappa) by DLMF 10.41.3.
fn log_iv_asymptotic(nu: f64, kappa: f64) -> f64
    ensures { result ≡ asymptotic_of nu kappa }
{
    let z = kappa / nu;
    let w = root::root(1.0 + z * z);
    let eta = w + logarithm::ln(z / (1.0 + w));
    let terms = asymptotic_terms(nu, w);
    nu * eta - 0.5 * logarithm::ln(6.283185307179586 * nu) - 0.5 * logarithm::ln(w)
        + logarithm::ln(terms)
}

// What the series hands out: the logarithm of its greatest term, and the sum of all terms over that one.
#[derive(Clone, Copy)]
pub struct PeakSum {
    pub peak: f64,
    pub sum: f64,
}

// The logarithm of term m, from that of the term before.
fn term_after(nu: f64, half_ln: f64, m: f64, log_a: f64) -> f64
    ensures { result ≡ term_after nu half_ln m log_a }
{
    log_a + (2.0 * half_ln - logarithm::ln(m) - logarithm::ln(nu + m))
}

// The peak and the sum with one term more.
fn with_term(s: PeakSum, log_a: f64) -> PeakSum
    ensures { result ≡ with_term s log_a }
{
    if s.peak < log_a {
        PeakSum {
            peak: log_a,
            sum: s.sum * exponential::exp(s.peak - log_a) + 1.0,
        }
    } else {
        PeakSum {
            sum: s.sum + exponential::exp(log_a - s.peak),
            ..s
        }
    }
}

// Whether the series ends at term m: past the peak with a negligible tail, or out of terms.
fn ends_at(kappa: f64, m: f64, peak: f64, log_a: f64) -> bool
    ensures { result ≡ ends_at kappa m peak log_a }
{
    ((kappa * 0.5 < m) & (log_a < peak - 40.0)) | (200000.0 < m)
}

// The peak and the sum of the series whose first term has the logarithm `first`. The number of a term is an f64, as in
// the Rust, and the end is told by it, so the loop is no `for`.
fn peak_sum(nu: f64, kappa: f64, half_ln: f64, first: f64) -> PeakSum
    ensures { result ≡ peak_sum_of nu kappa half_ln first }
{
    let mut log_a = first;
    let mut s = PeakSum {
        peak: first,
        sum: 1.0,
    };
    let mut m = 1.0;
    loop {
        log_a = term_after(nu, half_ln, m, log_a);
        s = with_term(s, log_a);
        if ends_at(kappa, m, s.peak, log_a) {
            break s;
        }
        m = m + 1.0;
    }
}

// log I_nu(kappa) by the power series, which starts from ln_gamma(nu + 1).
fn log_iv_series(nu: f64, kappa: f64, start: f64) -> f64
    requires { start ≡ ln_gamma_of (add binary64 nu (number 1)) }
    ensures { result ≡ series_of nu kappa }
{
    let half_ln = logarithm::ln(kappa * 0.5);
    let s = peak_sum(nu, kappa, half_ln, -start);
    nu * half_ln + s.peak + logarithm::ln(s.sum)
}

// log I_nu(kappa), by the evaluator that serves.
fn log_iv(nu: f64, kappa: f64, start: f64) -> f64
    requires { start ≡ ln_gamma_of (add binary64 nu (number 1)) }
    ensures { result ≡ log_iv_of nu kappa }
{
    if nu >= 1.0 && kappa >= 10000.0 {
        log_iv_asymptotic(nu, kappa)
    } else {
        log_iv_series(nu, kappa, start)
    }
}

// The order d / 2 - 1 of the Bessel function in d dimensions, with ln_gamma(d / 2), which its series starts from.
#[derive(Clone, Copy)]
pub struct Order {
    pub d: usize,
    pub start: f64,
    ghost starts: { StartOf d start },
}

impl Order {
    // That of d dimensions; the table is read once for all concentrations.
    pub fn of(d: usize) -> Order
        requires { Dimension d }
        ensures { result.d ≡ d }
    {
        let start = gamma_table::ln_gamma_half(d);
        Order { d, start }
    }

    // The log normalizing constant of the density in d dimensions.
    pub fn log_norm(self, kappa: f64) -> f64
        ensures { result ≡ log_vmf_norm_of self.d kappa }
    {
        let half_d = self.d as f64 / 2.0;
        let nu = half_d - 1.0;
        nu * logarithm::ln(kappa) - half_d * gamma::LN_TAU - log_iv(nu, kappa, self.start)
    }
}

// The log normalizing constant of the density in dim dimensions, as the Rust has it: the table is read for each.
pub fn log_vmf_norm(dim: usize, kappa: f64) -> f64
    requires { Dimension dim }
    ensures { result ≡ log_vmf_norm_of dim kappa }
{
    Order::of(dim).log_norm(kappa)
}

// The greatest concentration in dim dimensions.
pub fn kappa_max(dim: usize) -> f64
    ensures { result ≡ kappa_max dim }
{
    if dim <= 3 { 10000.0 } else { 1000000.0 }
}

// The concentration of a mean resultant length.
pub fn estimate_kappa(rbar: f64, dim: usize) -> f64
    requires { Dimension dim }
    ensures { Estimated dim rbar result }
{
    let d = dim as f64;
    let r = float::clamp(rbar, 1e-8, 1.0 - 1e-9);
    float::clamp((r * (d - r * r)) / (1.0 - r * r), 1e-8, kappa_max(dim))
}
