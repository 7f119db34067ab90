// The exponential of an f64, operation by operation (document 01, 'Arithmetic under the Rust', and document 02, #106),
// singly and of several at once. It takes any f64.
#![tactic(auto)]

ghost use Rattle.std.specs.Prelude.{◌≡◌, ◌^◌, ◌≤◌, map, T};
ghost use Rattle.std.specs.List.{All};
ghost use Rattle.exponential.specs.Exponential.{exp_of, exp_by, floor_of, turns_of};
ghost use Rattle.exponential.specs.Steps.{series_of, inside, low, Span, Lifted, OnePower, begun, stepped, summed};

// The series of the exponential at what is left of x past n: p = 1 + (r * p) / j, for j = 13 down to 1.
// Written out: as `series_each` of one the compiler keeps the division by 1, and an exponential takes a tenth longer.
fn series(x: f64, n: f64) -> f64
    ensures { result ≡ series_of x n }
{
    let r = (x - n * 0.6931471803691238) - n * 1.9082149292705877e-10;
    let p = 1.0;
    let p = 1.0 + (r * p) / 13.0;
    let p = 1.0 + (r * p) / 12.0;
    let p = 1.0 + (r * p) / 11.0;
    let p = 1.0 + (r * p) / 10.0;
    let p = 1.0 + (r * p) / 9.0;
    let p = 1.0 + (r * p) / 8.0;
    let p = 1.0 + (r * p) / 7.0;
    let p = 1.0 + (r * p) / 6.0;
    let p = 1.0 + (r * p) / 5.0;
    let p = 1.0 + (r * p) / 4.0;
    let p = 1.0 + (r * p) / 3.0;
    let p = 1.0 + (r * p) / 2.0;
    1.0 + (r * p) / 1.0
}

// 2^52 + b, b being the exponent's field of 2^n and n the floor of y, for a y from -1022 to 1023.5. From 2^52 on an
// f64 is a whole number, so adding 2^52 + 1023 rounds y to one; it is compared with y, since it may be the one above.
fn lifted(y: f64) -> f64
    requires { Span 1022 2047 2 y }
    ensures { Lifted (floor_of y) result }
{
    let s = y + 4503599627371519.0;
    if y < s - 4503599627371519.0 {
        s - 1.0
    } else {
        s
    }
}

// A whole number n as a float, and 2^n.
#[derive(Clone, Copy)]
struct Exponent {
    n: f64,
    w: f64,
}

// n and 2^n of an x: the digits of 2^52 + b are those of b.
fn power(x: f64) -> Exponent
    requires { T (inside x) }
    ensures { OnePower x result.n result.w }
{
    let u = lifted(x * 1.4426950408889634 + 0.5);
    let b = f64::to_bits(u) % 4503599627370496;
    Exponent {
        n: u - 4503599627371519.0,
        w: float::pow2(b),
    }
}

// The exponential from -708 to 709.
fn inner_exp(x: f64) -> f64
    requires { T (inside x) }
    ensures { result ≡ exp_by x (floor_of (turns_of x)) }
{
    let p = power(x);
    series(x, p.n) * p.w
}

// The exponential from -745 on and below -708, where n is from -1075 to -1021. Adding 200 to
// x * 1.4426950408889634 + 0.5 is exact here, so b is the exponent's field of 2^(n + 200), and 202 where n is -1021.
fn low_exp(x: f64) -> f64
    requires { T (low x) }
    ensures { result ≡ exp_by x (floor_of (turns_of x)) }
{
    let u = lifted(x * 1.4426950408889634 + 0.5 + 200.0);
    let b = f64::to_bits(u) % 4503599627370496;
    let p = series(x, u - 4503599627371719.0);
    if b < 202 {
        return p * float::pow2(b) * 6.223015277861142e-61;
    }
    p * float::pow2(b - 200)
}

// The exponential: NaN for NaN, +infinity above 709, +0 below -745.
pub fn exp(x: f64) -> f64
    ensures { result ≡ exp_of x }
{
    if x != x {
        return x;
    }
    if 709.0 < x {
        return 1.0 / 0.0;
    }
    if x < -708.0 {
        if x < -745.0 {
            return 0.0;
        }
        return low_exp(x);
    }
    inner_exp(x)
}

// Whether x is from -708 to 709.
fn is_inside(x: f64) -> bool
    ensures { result ≡ inside x }
{
    (-708.0 <= x) & (x <= 709.0)
}

// An exponential on its way: what is left of x past a whole number n, the sum of the series so far, and 2^n.
#[derive(Clone, Copy)]
struct Term {
    r: f64,
    p: f64,
    w: f64,
}

// Where the series of x begins.
fn begin(x: f64) -> Term
    requires { T (inside x) }
    ensures { result ≡ begun x }
{
    let e = power(x);
    Term {
        r: (x - e.n * 0.6931471803691238) - e.n * 1.9082149292705877e-10,
        p: 1.0,
        w: e.w,
    }
}

// One step of the series: p = 1 + (r * p) / j.
fn step(t: Term, j: f64) -> Term
    ensures { result ≡ stepped j t }
{
    Term {
        p: 1.0 + (t.r * t.p) / j,
        ..t
    }
}

// The series of each, for j = 13 down to 1. No step waits for another one's, since each is a chain of its own.
fn series_each<const N: usize>(s: [Term; N]) -> [Term; N]
    requires fits { N ≤ 2 ^ 32 }
    ensures { result ≡ map (summed 13) s.entry }
{
    let mut s = s;
    for i in 0..13u64 {
        let j = (13 - i) as f64;
        s = s.map(|t| step(t, j));
    }
    s
}

// Exponentials from -708 to 709, side by side.
fn inner_exps<const N: usize>(x: [f64; N]) -> [f64; N]
    requires fits { N ≤ 2 ^ 32 }
    requires inside { All (λ v. T (inside v)) x }
    ensures { result ≡ map exp_of x.entry }
{
    let s = series_each(x.map(begin));
    s.map(|t| t.p * t.w)
}

// Exponentials: zeros where all are below -745, side by side where all are from -708 to 709, else one by one.
pub fn exps<const N: usize>(x: [f64; N]) -> [f64; N]
    requires fits { N ≤ 2 ^ 32 }
    ensures { result ≡ map exp_of x.entry }
{
    if x.iter().all(|v| *v < -745.0) {
        return [0.0; N];
    }
    if x.iter().all(|v| is_inside(*v)) {
        return inner_exps(x);
    }
    x.map(exp)
}

// Eight exponentials: side by side where all are from -708 to 709, else by fours. `exps` of eight would go one by one
// there, or miss that four of them are zeros.
pub fn exp8(x: [f64; 8]) -> [f64; 8]
    ensures { result ≡ map exp_of x }
{
    if x.iter().all(|v| is_inside(*v)) {
        return inner_exps(x);
    }
    let p = exps([x[0], x[1], x[2], x[3]]);
    let q = exps([x[4], x[5], x[6], x[7]]);
    [p[0], p[1], p[2], p[3], q[0], q[1], q[2], q[3]]
}
