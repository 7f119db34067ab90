// A leaf's bounds (vmf.rs; document 01, 'Spherical k-means'): their shifts after the centres turned, the two smallest
// drifts, and the skip.
#![tactic(auto)]

ghost use Rattle.std.specs.Prelude.{◌≡◌, true, false, MatchOption};
ghost use Rattle.kmeans_bounds.specs.Shifts.{cosine, squares_of, sines_of, shift_lower, shift_upper};
ghost use Rattle.kmeans_bounds.specs.Shifts.{slower_of, slowest_of, shifted_bounds, shifted_by, skips};
ghost use Rattle.kmeans_bounds.specs.Products.{reaches_of, foot_of, close_of, cosines_of, root_left_out};
ghost use Rattle.kmeans_bounds.specs.Products.{may_skip_by, may_skip, NeverSkipped};

use pick::Best;

// Held to [-1, 1].
fn cosine(x: f64) -> f64
    ensures { result ≡ cosine x }
{
    float::clamp(x, -1.0, 1.0)
}

// The squares of the sines of two angles multiplied, from their cosines.
fn squares(a: f64, p: f64) -> f64
    ensures { result ≡ squares_of a p }
{
    float::max((1.0 - a * a) * (1.0 - p * p), 0.0)
}

// The sines of two angles multiplied, from their cosines.
fn sines(a: f64, p: f64) -> f64
    ensures { result ≡ sines_of a p }
{
    root::root(squares(a, p))
}

// A lower bound on a cosine after its centre turned by p. It and the upper one differ in the test, in the limit and in
// a sign, so a function of both would be these two with a switch.
#[tactic(auto, using(crate::proofs::Turns::lower_within))]
fn shift_lower(l: f64, p: f64) -> f64
    ensures { result ≡ shift_lower l p }
{
    let l = cosine(l);
    let p = cosine(p);
    if l < -p {
        return -1.0;
    }
    l * p - sines(l, p)
}

// An upper bound on a cosine after its centre turned by p.
#[tactic(auto, using(crate::proofs::Turns::upper_within))]
fn shift_upper(u: f64, p: f64) -> f64
    ensures { result ≡ shift_upper u p }
{
    let u = cosine(u);
    let p = cosine(p);
    if p <= u {
        return 1.0;
    }
    u * p + sines(u, p)
}

// With drift p of centre c.
fn slower(b: Best, c: usize, p: f64) -> Best
    ensures { result ≡ slower_of b c p }
{
    b.with(c, p, |x, held| x < held)
}

// The two smallest entries: the place of the smallest, it, and the next.
pub fn two_smallest(drift: &[f64]) -> Best
    ensures { result ≡ slowest_of drift.now }
{
    let most = 1.0 / 0.0;
    let mut b = Best {
        index: 0,
        value: most,
        next: most,
    };
    for (c, &p) in drift.iter().enumerate() {
        b = slower(b, c, p);
    }
    b
}

// Whether c is at most the root of a, by its square; false also where they are too close to tell.
fn reaches(c: f64, a: f64) -> bool
    ensures { result ≡ reaches_of c a }
{
    (c <= 0.0) | (c * c < a)
}

// Where a base of length d is met by the height of the triangle whose other sides have the squares a and e, held to
// the base.
fn foot(d: f64, a: f64, e: f64) -> f64
    ensures { result ≡ foot_of d a e }
{
    float::clamp(0.5 * (d + (a - e) / d), 0.0, d)
}

// Whether x less the root of a and y with the root of e are less than the slack apart, without the roots: parts of
// x - y that the roots reach say so; false also where it is too close to tell.
fn is_close(x: f64, y: f64, a: f64, e: f64) -> bool
    ensures { result ≡ close_of x y a e }
{
    let d = x - y;
    let c = foot(d, a, e);
    let f = d - c;
    reaches(c, a) & reaches(f, e) & (x - c - (y + f) < 1e-12)
}

// How far the centres turned, as cosines: a leaf's own one, and the others at most; none where there is no other.
#[derive(Clone, Copy)]
pub struct Turned {
    pub own: f64,
    pub other: Option<f64>,
}

// A leaf's bounds: the norm of its mean, a lower bound on the cosine to its own centre, an upper one on that to any
// other.
#[derive(Clone, Copy)]
pub struct Bounds {
    pub scale: f64,
    pub low: f64,
    pub high: f64,
}

// A leaf's bounds and the turns that shift them, held to [-1, 1].
#[derive(Clone, Copy)]
struct Cosines {
    low: f64,
    own: f64,
    high: f64,
    other: f64,
}

impl Cosines {
    fn of(b: Bounds, own: f64, other: f64) -> Cosines
        ensures { result ≡ cosines_of own other b }
    {
        Cosines {
            low: cosine(b.low),
            own: cosine(own),
            high: cosine(b.high),
            other: cosine(other),
        }
    }

    // Whether one of the shifts needs no root.
    fn leaves_root_out(self) -> bool
        ensures { result ≡ root_left_out self }
    {
        (self.low < -self.own) | (self.other <= self.high)
    }

    // Whether the shifted bounds could be the slack apart, without their roots.
    fn may_skip(self) -> bool
        ensures { result ≡ may_skip_by self.low self.own self.high self.other }
    {
        let x = self.low * self.own;
        let y = self.high * self.other;
        if x - y < 1e-12 {
            return false;
        }
        if self.leaves_root_out() {
            return true;
        }
        !is_close(
            x,
            y,
            squares(self.low, self.own),
            squares(self.high, self.other),
        )
    }
}

impl Bounds {
    // The bounds of a leaf shifted both, their roots in step unless a test says that one is not needed.
    #[tactic(auto, unfolding(crate::specs::Shifts::shift_lower, crate::specs::Shifts::shift_upper))]
    fn both_shifted(self, own: f64, other: f64) -> Bounds
        ensures { result ≡ shifted_bounds true own other self }
    {
        let c = Cosines::of(self, own, other);
        if c.leaves_root_out() {
            return Bounds {
                low: shift_lower(self.low, own),
                high: shift_upper(self.high, other),
                ..self
            };
        }
        let [s, t] = root::roots([squares(c.low, c.own), squares(c.high, c.other)]);
        Bounds {
            low: c.low * c.own - s,
            high: c.high * c.other + t,
            ..self
        }
    }

    // The bounds after the centres turned.
    pub fn shifted(self, turns: Turned) -> Bounds
        ensures { result ≡ shifted_by turns self }
    {
        match turns.other {
            Some(other) => self.both_shifted(turns.own, other),
            None => Bounds {
                low: shift_lower(self.low, turns.own),
                ..self
            },
        }
    }

    // Whether the shifted bounds could still let the leaf be skipped, without their roots; false only where they
    // cannot.
    #[tactic(auto, using(crate::proofs::Skips::no_skip))]
    pub fn may_skip(self, turns: Turned) -> bool
        ensures value { MatchOption turns.other (result ≡ true) (λ other. result ≡ may_skip turns.own other self) }
        ensures never_skipped { result ≡ false → NeverSkipped turns self }
    {
        match turns.other {
            Some(other) => Cosines::of(self, turns.own, other).may_skip(),
            None => true,
        }
    }

    // Whether the leaf is skipped in round `it`.
    pub fn is_skipped(self, it: usize) -> bool
        ensures { result ≡ skips it self }
    {
        it > 0 && self.scale > 0.0 && self.low - self.high >= 1e-12
    }
}
