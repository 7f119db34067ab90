// f64 arithmetic as document 01 has it ('Arithmetic under the Rust'): maximum, clamp, absolute value, bit patterns, and
// a positive number taken apart and put together. Every function but the last three is total: it takes any f64, NaN,
// infinities, zeros and subnormals included.
#![tactic(auto)]

ghost use Rattle.std.specs.Prelude.{◌≡◌, ◌^◌, ◌<◌, ◌≤◌, T};
ghost use Rattle.std.specs.Float.Ieee.{of_bits, to_bits};
ghost use Rattle.std.specs.Float.{binary64};
ghost use Rattle.std.specs.Float.Ieee.Positive.{positive};
ghost use Rattle.float.specs.Arithmetic.{max_of, clamp_of, abs_of};
ghost use Rattle.float.specs.Parts.{SplitOf, value_of, power_of};

// The greater of two; with one NaN the other operand. This one and the next two are no functions of the library, since
// document 01 says what each does with a NaN and with either zero.
pub fn max(x: f64, y: f64) -> f64
    ensures { result ≡ max_of x y }
{
    if x != x {
        return y;
    }
    if x < y { y } else { x }
}

// x held to [low, high]; a NaN passes.
pub fn clamp(x: f64, low: f64, high: f64) -> f64
    ensures { result ≡ clamp_of x low high }
{
    if x < low {
        return low;
    }
    if high < x { high } else { x }
}

// x without its sign.
pub fn abs(x: f64) -> f64
    ensures { result ≡ abs_of x }
{
    if x < 0.0 {
        return -x;
    }
    if x == 0.0 { 0.0 } else { x }
}

// The f64 of a bit pattern; every pattern of a NaN is the one NaN.
pub fn of_bits(b: u64) -> f64
    ensures { result ≡ of_bits binary64 b }
{
    if 0x7FF0_0000_0000_0000 < b % 0x8000_0000_0000_0000 {
        0.0 / 0.0
    } else {
        f64::from_bits(b)
    }
}

// The bit pattern of an f64; of a NaN always 0x7FF8000000000000.
pub fn bits_of(x: f64) -> u64
    ensures { result ≡ to_bits binary64 x }
{
    if x != x {
        0x7FF8_0000_0000_0000
    } else {
        f64::to_bits(x)
    }
}

// 2^(n - 1023): the float whose exponent's field is n.
pub fn pow2(n: u64) -> f64
    requires { (0 < n) × (n < 2047) }
    ensures { result ≡ power_of n }
{
    f64::from_bits(n << 52)
}

// A positive float's 53 leading binary digits, and how far they are moved up.
#[derive(Clone, Copy)]
pub struct Digits {
    pub m: u64,
    pub e: u64,
}

// A positive x as m * 2^e * 2^-1126, where m has 53 binary digits. Those of a subnormal number are moved up n places.
pub fn split(x: f64) -> Digits
    requires { T (positive x) }
    ensures { SplitOf x result.m result.e }
{
    let b = f64::to_bits(x);
    let f = b / 4503599627370496;
    let t = b % 4503599627370496;
    if f == 0 {
        let n = t.leading_zeros() - 11;
        Digits {
            m: t << n,
            e: 52 - n as u64,
        }
    } else {
        Digits {
            m: t + 4503599627370496,
            e: f + 51,
        }
    }
}

// y * 2^k * 2^-1074, where y has 53 binary digits.
pub fn compose(y: u64, k: u64) -> f64
    requires { (2 ^ 52 ≤ y) × (y < 2 ^ 53) × (k < 2046) }
    ensures { result ≡ value_of y k }
{
    f64::from_bits(k * 4503599627370496 + y)
}
