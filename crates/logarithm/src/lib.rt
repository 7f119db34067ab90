// The natural logarithm of an f64, operation by operation (document 01, 'Arithmetic under the Rust'). It takes any f64.
#![tactic(auto)]

ghost use Rattle.std.specs.Prelude.{◌≡◌, T};
ghost use Rattle.std.specs.Float.Ieee.Positive.{positive};
ghost use Rattle.logarithm.specs.Logarithm.{ln_of, ln_by, ln_at, exponent_of, fraction_of};

// The logarithm of 2^e * f, straight on.
fn ln_at(e: f64, f: f64) -> f64
    ensures { result ≡ ln_at e f }
{
    let s = (f - 1.0) / (f + 1.0);
    let z = s * s;
    let p = 1.0 / 21.0;
    let p = 1.0 / 19.0 + z * p;
    let p = 1.0 / 17.0 + z * p;
    let p = 1.0 / 15.0 + z * p;
    let p = 1.0 / 13.0 + z * p;
    let p = 1.0 / 11.0 + z * p;
    let p = 1.0 / 9.0 + z * p;
    let p = 1.0 / 7.0 + z * p;
    let p = 1.0 / 5.0 + z * p;
    let p = 1.0 / 3.0 + z * p;
    let p = 1.0 / 1.0 + z * p;
    e * 0.6931471803691238 + ((2.0 * s) * p + e * 1.9082149292705877e-10)
}

// The logarithm of a positive number, from its leading digits and its exponent.
fn positive_ln(x: f64) -> f64
    requires { T (positive x) }
    ensures { result ≡ ln_by (exponent_of x) (fraction_of x) }
{
    let s = float::split(x);
    let f = float::compose(s.m, 1022);
    if 1.4142135623730951 < f {
        ln_at((s.e as f64) - 1073.0, f * 0.5)
    } else {
        ln_at((s.e as f64) - 1074.0, f)
    }
}

// The natural logarithm: NaN for NaN and below zero, -infinity at a zero, +infinity kept.
pub fn ln(x: f64) -> f64
    ensures { result ≡ ln_of x }
{
    if x == 0.0 {
        return -1.0 / 0.0;
    }
    if x < 0.0 {
        return 0.0 / 0.0;
    }
    if x < 1.0 / 0.0 { positive_ln(x) } else { x }
}
