// The work area of a run of spherical k-means (document 01, 'Spherical k-means'): its sizes and leaves, and the parts
// of the lent arrays that it works in; how long it is; and when a run replaces the held one.
#![tactic(auto)]

ghost use Rattle.std.specs.Prelude.{◌≡◌, not, ◌<◌, ◌≤◌, length};
ghost use Rattle.rows.specs.Rows.{row_of};
ghost use Rattle.counts.specs.Counts.{AtMost, of_call, plus_of};
ghost use Rattle.kmeans_layout.specs.Sized.{Fit, Sized, Labelled, total, work_u32_total, half};
ghost use Rattle.kmeans_layout.specs.Kept.{kept_of};
ghost use Rattle.std.specs.Float.Ieee.{le};

use limits::{Leaves, Shape};

// ---- what is given

// The sizes of a run and its leaves, which have them.
#[derive(Clone, Copy)]
pub struct Problem<'a> {
    pub shape: Shape,
    pub leaves: Leaves<'a>,
    ghost fit: { Fit shape.m shape.d leaves.weights.now leaves.coords.now },
}

// ---- the area

// The leaves of a run and its sizes, which are the leaves' with k; and what it holds: centres and sums row by row; of
// each leaf its scale, its bounds, how well it is served and its label; of each centre its drift and how many leaves it
// has. What is wanted after the run, centres, sums and labels, may be lent for longer than what it works with.
#[derive(Drop)]
pub struct Area<'a, 'b> {
    pub shape: Shape,
    pub leaves: Leaves<'a>,
    ghost fit: { Fit shape.m shape.d leaves.weights.now leaves.coords.now },
    pub centers: &'a mut [f64],
    pub sums: &'a mut [f64],
    pub scale: &'b mut [f64],
    pub low: &'b mut [f64],
    pub high: &'b mut [f64],
    pub served: &'b mut [f64],
    pub drift: &'b mut [f64],
    pub labels: &'a mut [u32],
    pub counts: &'b mut [u32],
    ghost sized: { Sized shape.m shape.k shape.d centers.now sums.now scale.now low.now high.now served.now drift.now
        labels.now counts.now },
    ghost labelled: { Labelled shape.m shape.k labels.now },
}

impl<'a> Area<'a, '_> {
    // An area in the two lent arrays; every label is 0.
    pub fn of(problem: Problem<'a>, work: &'a mut [f64], work_u32: &'a mut [u32]) -> Area<'a, 'a>
        requires { let z = problem.shape in
            (total z.m z.k z.d ≤ length work.old) × (work_u32_total z.m z.k ≤ length work_u32.old) }
        ensures { (result.shape ≡ problem.entry.shape) × (result.leaves ≡ problem.entry.leaves) }
    {
        let shape = problem.shape;
        let kd = shape.k * shape.d;
        let (centers, rest) = work.split_at_mut(kd);
        let (sums, rest) = rest.split_at_mut(kd);
        let (scale, rest) = rest.split_at_mut(shape.m);
        let (low, rest) = rest.split_at_mut(shape.m);
        let (high, rest) = rest.split_at_mut(shape.m);
        let (served, rest) = rest.split_at_mut(shape.m);
        let (drift, _) = rest.split_at_mut(shape.k);
        let (labels, rest) = work_u32.split_at_mut(shape.m);
        let (counts, _) = rest.split_at_mut(shape.k);
        rows::fill(labels, 0);
        Area {
            shape,
            leaves: problem.leaves,
            centers,
            sums,
            scale,
            low,
            high,
            served,
            drift,
            labels,
            counts,
        }
    }

    // Leaf i's coordinates. They outlive the area, so that it may be written while they are held.
    #[tactic(auto, using(rows::proofs::Rows::row_within))]
    pub fn leaf(&self, i: usize) -> &'a [f64]
        requires { i < self.now.shape.m }
        ensures { result.now ≡ row_of self.now.leaves.coords.now self.now.shape.d i }
    {
        rows::row(self.leaves.coords, self.shape.d, i)
    }

    // Centre c.
    #[tactic(auto, using(rows::proofs::Rows::row_within))]
    pub fn center(&self, c: usize) -> &[f64]
        requires { c < self.now.shape.k }
        ensures { result.now ≡ row_of self.now.centers.now self.now.shape.d c }
    {
        rows::row(self.centers, self.shape.d, c)
    }

    // The sum of group c.
    #[tactic(auto, using(rows::proofs::Rows::row_within))]
    pub fn sum(&self, c: usize) -> &[f64]
        requires { c < self.now.shape.k }
        ensures { result.now ≡ row_of self.now.sums.now self.now.shape.d c }
    {
        rows::row(self.sums, self.shape.d, c)
    }
}

// ---- its length

// How long an area is; in the u32 array it is m + k.
pub fn total(shape: Shape) -> usize
    ensures { result ≡ total shape.m shape.k shape.d }
{
    let kd = shape.k * shape.d;
    kd + kd + 4 * shape.m + shape.k
}

// How long a half of the f64 array is; of the u32 array it is m + k.
pub fn half(shape: Shape) -> usize
    ensures { result ≡ half shape.m shape.k shape.d }
{
    let kd = shape.k * shape.d;
    shape.m * shape.k + kd + kd + 4 * shape.m + 8 * shape.k
}

// ---- the held run

// What is held: the value of the held run, the greater the better, and the counts of all runs so far.
#[derive(Clone, Copy)]
pub struct Held {
    pub value: f64,
    pub counts: counts::Counts,
}

impl Held {
    // Whether a run of this value replaces the held one.
    pub fn gives_way(self, value: f64) -> bool
        ensures { result ≡ not (le value self.value) }
    {
        !(value <= self.value)
    }

    // After one run more, of this value and with these counts.
    pub fn after(self, value: f64, more: counts::Counts) -> Held
        requires { (AtMost of_call self.counts) × (AtMost of_call more) }
        ensures { result ≡ record {
          value = kept_of self.value value self.value value;
          counts = plus_of self.counts more;
        } }
    {
        let counts = self.counts + more;
        if self.gives_way(value) {
            return Held { value, counts };
        }
        Held { counts, ..self }
    }
}
