// The helpers that vmf.rs shares among its methods, on lent slices of f64: dot, norm, unit, sums, and rows that are
// divided, scaled and added.
#![tactic(auto)]

ghost use Rattle.std.specs.Prelude.{◌≡◌, ◌*◌, length};
ghost use Rattle.std.specs.List.{fold};
ghost use Rattle.std.specs.Float.{binary64};
ghost use Rattle.std.specs.Float.Ieee.{add};
ghost use Rattle.float.specs.Arithmetic.{minus_zero, plus_zero, sum_from};
ghost use Rattle.rows.specs.Rows.{Alike};
ghost use Rattle.vector.specs.Dots.{dots_of, FourRows, dot4_of};
ghost use Rattle.vector.specs.Vectors.{dot_of, norm_of, divided_by, unit_vector, add_scaled};

// The dots of x with N rows of d numbers that lie one after the other, side by side in N accumulators. Each is summed
// from -0 in index order, to the end of the shorter vector.
pub fn dots<const N: usize>(x: &[f64], rows: &[f64], d: usize) -> [f64; N]
    requires { length rows.now ≡ N * d }
    ensures { result ≡ dots_of x.now rows.now d N }
{
    let mut s = [-0.0; N];
    for j in 0..x.len().min(d) {
        let v = x[j];
        for (c, t) in s.iter_mut().enumerate() {
            *t = *t + v * rows[c * d + j];
        }
    }
    s
}

// The products summed from -0 in index order, to the end of the shorter vector.
pub fn dot(a: &[f64], b: &[f64]) -> f64
    ensures { result ≡ dot_of a.now b.now }
{
    dots::<1>(a, b, b.len())[0]
}

// The dots of x with four vectors of one length, wherever they lie, side by side in four accumulators.
pub fn dot4(x: &[f64], p: &[f64], q: &[f64], r: &[f64], s: &[f64]) -> [f64; 4]
    requires { FourRows p.now q.now r.now s.now }
    ensures { result ≡ dot4_of x.now p.now q.now r.now s.now }
{
    let mut a = -0.0;
    let mut b = -0.0;
    let mut c = -0.0;
    let mut e = -0.0;
    for j in 0..x.len().min(p.len()) {
        let v = x[j];
        a = a + v * p[j];
        b = b + v * q[j];
        c = c + v * r[j];
        e = e + v * s[j];
    }
    [a, b, c, e]
}

// The root of the sum of the squares.
pub fn norm(v: &[f64]) -> f64
    ensures { result ≡ norm_of v.now }
{
    root::root(dot(v, v))
}

// The sum from -0, as Rust's `sum`.
pub fn sum(v: &[f64]) -> f64
    ensures { result ≡ sum_from minus_zero v.now }
{
    accumulate(-0.0, v)
}

// The sum from +0, as an adding fold.
pub fn fold(v: &[f64]) -> f64
    ensures { result ≡ sum_from plus_zero v.now }
{
    accumulate(0.0, v)
}

// start, with each element added in order.
fn accumulate(start: f64, v: &[f64]) -> f64
    ensures { result ≡ fold (add binary64) start v.now }
{
    v.iter().fold(start, |s, x| s + *x)
}

// Every element is divided by n.
pub fn divide_by(row: &mut [f64], n: f64)
    ensures { row.new ≡ divided_by n row.old }
{
    for e in row.iter_mut() {
        *e = *e / n;
    }
}

// to becomes from divided by its norm; a vector whose norm is 0 or NaN is copied unchanged.
pub fn unit(to: &mut [f64], from: &[f64])
    requires { Alike to.old from.now }
    ensures { to.new ≡ unit_vector from.now }
{
    let n = norm(from);
    rows::copy(to, from);
    if 0.0 < n {
        divide_by(to, n);
    }
}

// row + w * x, in place, to the end of the shorter. x is read by index, since a proof learns nothing of what is written
// through `iter_mut().zip(x)`.
pub fn add_scaled(row: &mut [f64], w: f64, x: &[f64])
    ensures { row.new ≡ add_scaled w row.old x.now }
{
    let n = row.len().min(x.len());
    for (j, e) in row[..n].iter_mut().enumerate() {
        *e = *e + w * x[j];
    }
}
