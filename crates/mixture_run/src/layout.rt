// Where a run of the mixture works. Its area: centres and sums of the warm start, which are then directions and
// resultants, its labels, and a rest that first the warm start and then the rounds divide up. The groups of the rounds:
// the parts into which they divide it.
ghost use Rattle.std.specs.Prelude.{◌≡◌, ◌+◌, ◌*◌, ◌<◌, ◌≤◌, length};
ghost use Rattle.rows.specs.Rows.{row_of};
ghost use Rattle.kmeans_layout.specs.Sized.{Fit, Labelled, total as warm_total, work_u32_total};
ghost use Rattle.mixture_run.specs.Sized.{SizedArea, Sized, SizedFound, total};
ghost use Rattle.mixture_run.specs.Sized.{weights_in, kappas_in, responsibilities_in};

use kmeans_layout::Problem;
use limits::{Leaves, Shape};

// ---- the area of a run

#[derive(Drop)]
pub struct Area<'a> {
    pub shape: Shape,
    pub leaves: Leaves<'a>,
    ghost fit: { Fit shape.m shape.d leaves.weights.now leaves.coords.now },
    pub centers: &'a mut [f64],
    pub sums: &'a mut [f64],
    pub rest: &'a mut [f64],
    pub labels: &'a mut [u32],
    pub counts: &'a mut [u32],
    ghost sized: { SizedArea shape.m shape.k shape.d centers.now sums.now rest.now labels.now counts.now },
    ghost labelled: { Labelled shape.m shape.k labels.now },
}

impl<'a> Area<'a> {
    // An area in the two lent arrays; every label is 0.
    pub fn of(problem: Problem<'a>, work: &'a mut [f64], work_u32: &'a mut [u32]) -> Area<'a>
        requires { let z = problem.shape in
            (total z.m z.k z.d ≤ length work.old) × (warm_total z.m z.k z.d ≤ length work.old)
            × (work_u32_total z.m z.k ≤ length work_u32.old) }
        ensures { (result.shape ≡ problem.entry.shape) × (result.leaves ≡ problem.entry.leaves) }
    {
        let shape = problem.shape;
        let kd = shape.k * shape.d;
        let (centers, rest) = work.split_at_mut(kd);
        let (sums, rest) = rest.split_at_mut(kd);
        let (labels, others) = work_u32.split_at_mut(shape.m);
        let (counts, _) = others.split_at_mut(shape.k);
        rows::fill(labels, 0);
        Area {
            shape,
            leaves: problem.leaves,
            centers,
            sums,
            rest,
            labels,
            counts,
        }
    }

    // What the run in this area found.
    pub fn found(&self) -> Found<'_>
        ensures { (result.shape ≡ self.now.shape) × (result.directions.now ≡ self.now.centers.now)
            × (result.weights.now ≡ weights_in self.now.shape.k self.now.rest.now)
            × (result.concentrations.now ≡ kappas_in self.now.shape.k self.now.rest.now)
            × (result.responsibilities.now
            ≡ responsibilities_in self.now.shape.m self.now.shape.k self.now.rest.now) }
    {
        found_in(self.shape, self.centers, self.rest)
    }

    // Leaf i's responsibilities.
    pub fn leaf_responsibilities(&self, i: usize) -> &[f64]
        requires { i < self.now.shape.m }
        ensures { result.now ≡ row_of (responsibilities_in self.now.shape.m self.now.shape.k self.now.rest.now)
            self.now.shape.k i }
    {
        self.found().leaf_responsibilities(i)
    }
}

// ---- what a run found

// What a run found, lent to be read: its sizes; the responsibilities, leaf by leaf; of each group its weight, its
// direction and its concentration.
#[derive(Clone, Copy)]
pub struct Found<'a> {
    pub shape: Shape,
    pub responsibilities: &'a [f64],
    pub weights: &'a [f64],
    pub directions: &'a [f64],
    pub concentrations: &'a [f64],
    ghost sized: { SizedFound shape.m shape.k shape.d responsibilities.now weights.now directions.now
        concentrations.now },
}

impl<'a> Found<'a> {
    // Leaf i's responsibilities.
    #[tactic(auto, using(rows::proofs::Rows::row_within))]
    pub fn leaf_responsibilities(self, i: usize) -> &'a [f64]
        requires { i < self.shape.m }
        ensures { result.now ≡ row_of self.entry.responsibilities.now self.entry.shape.k i }
    {
        rows::row(self.responsibilities, self.shape.k, i)
    }
}

// What stands in the directions and in the rest of an area after its rounds.
pub fn found_in<'a>(shape: Shape, directions: &'a [f64], rest: &'a [f64]) -> Found<'a>
    requires { let k = shape.k in
        (length directions.now ≡ k * shape.d) × (k + k + k + k + k + shape.m * k ≤ length rest.now) }
    ensures { (result.shape ≡ shape) × (result.directions.now ≡ directions.now)
        × (result.weights.now ≡ weights_in shape.k rest.now)
        × (result.concentrations.now ≡ kappas_in shape.k rest.now)
        × (result.responsibilities.now ≡ responsibilities_in shape.m shape.k rest.now) }
{
    let k = shape.k;
    let (weights, rest) = rest.split_at(k);
    let (concentrations, rest) = rest.split_at(k);
    let (_, rest) = rest.split_at(3 * k);
    let (responsibilities, _) = rest.split_at(shape.m * k);
    Found {
        shape,
        responsibilities,
        weights,
        directions,
        concentrations,
    }
}

// ---- the groups of the rounds

// Directions and resultants; of each group its weight, concentration, log coefficient, whole weight and length of
// resultant; and the responsibilities, leaf by leaf.
#[derive(Drop)]
pub struct Groups<'a> {
    pub shape: Shape,
    pub leaves: Leaves<'a>,
    ghost fit: { Fit shape.m shape.d leaves.weights.now leaves.coords.now },
    pub directions: &'a mut [f64],
    pub sums: &'a mut [f64],
    pub weights: &'a mut [f64],
    pub kappas: &'a mut [f64],
    pub log_coefficients: &'a mut [f64],
    pub totals: &'a mut [f64],
    pub norms: &'a mut [f64],
    pub responsibilities: &'a mut [f64],
    ghost sized: { Sized shape.m shape.k shape.d directions.now sums.now weights.now kappas.now
        log_coefficients.now totals.now norms.now responsibilities.now },
}

impl<'a> Groups<'a> {
    // Leaf i's coordinates. They outlive the groups, so that these may be written while they are held.
    #[tactic(auto, using(rows::proofs::Rows::row_within))]
    pub fn leaf(&self, i: usize) -> &'a [f64]
        requires { i < self.now.shape.m }
        ensures { result.now ≡ row_of self.now.leaves.coords.now self.now.shape.d i }
    {
        rows::row(self.leaves.coords, self.shape.d, i)
    }

    // Leaf i's responsibilities.
    #[tactic(auto, using(rows::proofs::Rows::row_within))]
    pub fn shares(&self, i: usize) -> &[f64]
        requires { i < self.now.shape.m }
        ensures { result.now ≡ row_of self.now.responsibilities.now self.now.shape.k i }
    {
        let k = self.shape.k;
        rows::row(self.responsibilities, k, i)
    }
}
