// A leaf's best centre (vmf.rs; document 01, 'Spherical k-means'): the first of the greatest dots with the centres, it,
// and the next best dot.
#![tactic(auto)]

ghost use Rattle.std.specs.Prelude.{◌≡◌, ◌+◌, ◌*◌, ◌-◌, ◌<◌, ◌≤◌, length};
ghost use Rattle.kmeans_nearest.specs.Nearest.{better_of, best_to};
ghost use Rattle.kmeans_nearest.specs.Blocks.{row_dots, with_dots, Fit};

use pick::Best;

// With centre c, whose dot is v.
fn better(b: Best, c: usize, v: f64) -> Best
    ensures { result ≡ better_of b c v }
{
    b.with(c, v, |x, held| held < x)
}

// The dots with rows c to c + N - 1 of an array: the centres, or the leaves, so it is no method of `Centers`.
pub fn row_dots<const N: usize>(x: &[f64], centers: &[f64], c: usize, d: usize) -> [f64; N]
    requires { (c + N) * d ≤ length centers.now }
    ensures { result ≡ row_dots x.now centers.now d c N }
{
    let at = c * d;
    vector::dots(x, &centers[at..at + N * d], d)
}

// With the centres from c on, whose dots are f.
fn with_dots(b: Best, c: usize, f: &[f64]) -> Best
    requires { c + length f.now ≤ 64 }
    ensures { result ≡ with_dots b c f.now }
{
    let mut b = b;
    for (i, &v) in f.iter().enumerate() {
        b = better(b, c + i, v);
    }
    b
}

// k centres of d coordinates, row by row.
#[derive(Clone, Copy)]
pub struct Centers<'a> {
    pub rows: &'a [f64],
    pub k: usize,
    pub d: usize,
    ghost fit: { Fit (length rows.now) k d },
}

impl<'a> Centers<'a> {
    // The best of the first N.
    fn best_of_first<const N: usize>(self, x: &[f64]) -> Best
        requires { (0 < N) × (N ≤ self.k) }
        ensures { result ≡ best_to x.now self.entry.rows.now self.entry.d (N - 1) }
    {
        let f = row_dots::<N>(x, self.rows, 0, self.d);
        let v = &f[..];
        let b = Best {
            index: 0,
            value: v[0],
            next: -1.0 / 0.0,
        };
        with_dots(b, 1, &v[1..])
    }

    // The best of those before c + N from the best of those before c.
    fn best_through<const N: usize>(self, x: &[f64], b: Best, c: usize) -> Best
        requires few { c + N ≤ self.k }
        requires start { (0 < c) × (b ≡ best_to x.now self.rows.now self.d (c - 1)) }
        ensures { result ≡ best_to x.now self.entry.rows.now self.entry.d (c + N - 1) }
    {
        let f = row_dots::<N>(x, self.rows, c, self.d);
        with_dots(b, c, &f)
    }

    // The best from the best of those before `at`: by fours, then singly. The loops of this shape share only their
    // borders, and one function of them would take two closures.
    fn best_from(self, x: &[f64], start: Best, at: usize) -> Best
        requires { (0 < at) × (at ≤ self.k) × (start ≡ best_to x.now self.rows.now self.d (at - 1)) }
        ensures { result ≡ best_to x.now self.entry.rows.now self.entry.d (self.entry.k - 1) }
    {
        let left = self.k - at;
        let mut b = start;
        for i in 0..left / 4 {
            b = self.best_through::<4>(x, b, at + 4 * i);
        }
        for c in self.k - left % 4..self.k {
            b = self.best_through::<1>(x, b, c);
        }
        b
    }

    // The best, of equals the first; the first four at once where there are as many.
    pub fn best_of(self, x: &[f64]) -> Best
        ensures { result ≡ best_to x.now self.entry.rows.now self.entry.d (self.entry.k - 1) }
    {
        if self.k < 4 {
            self.best_from(x, self.best_of_first::<1>(x), 1)
        } else {
            self.best_from(x, self.best_of_first::<4>(x), 4)
        }
    }
}
