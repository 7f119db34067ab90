// One run of spherical k-means in its work area (vmf.rs; document 01, 'Spherical k-means'): seeding, rounds of pass and
// update, and cohesion.
#![tactic(auto)]

ghost use Rattle.std.specs.Prelude.{◌≡◌, ◌+◌, ◌*◌, ◌≤◌, length};
ghost use Rattle.kmeans_sums.specs.Sums.{norms_up_to};
ghost use Rattle.kmeans_layout.specs.Areas.{state_of, Same};
ghost use Rattle.kmeans_lloyd.specs.Lloyd.{started_from};
ghost use Rattle.kmeans_lloyd.specs.Runs.{RoundDone, RunSoFar, put_scale, own_dots, norms_from, rounds_in, result_in};
ghost use Rattle.kmeans_lloyd.specs.Runs.{RunDone, RunLeft};

use kmeans_layout::{Area, Problem};
use limits::Rounds;
use std::ops::ControlFlow;

// ---- rounds

// Round `it`: the pass, and unless it ends the run the update; its counts, as a break where it was the last.
fn one_round(area: &mut Area, it: usize) -> ControlFlow<counts::Counts, counts::Counts>
    ensures same { Same area.old area.new }
    ensures done { let z = area.old.shape in
        let l = area.old.leaves in
        RoundDone l.weights.now l.coords.now z.m z.k z.d it (state_of area.old) (state_of area.new) result }
{
    let p = kmeans_assign::pass(
        area.shape,
        area.leaves.coords,
        area.centers,
        area.scale,
        area.low,
        area.high,
        area.served,
        area.drift,
        area.labels,
        it,
    );
    if !p.changed & (it > 0) {
        return ControlFlow::Break(p.counts);
    }
    kmeans_update::update(area);
    ControlFlow::Continue(p.counts)
}

// Rounds until no label changes after the first, as many as there may be.
fn lloyd(area: &mut Area, rounds: Rounds) -> counts::Counts
    ensures same { Same area.old area.new }
    ensures done { RunSoFar (rounds_in area.old rounds.most) (state_of area.new) result }
{
    let mut c = counts::Counts::default();
    for it in 0..rounds.most {
        match one_round(area, it) {
            ControlFlow::Continue(n) => c = c + n,
            ControlFlow::Break(n) => return c + n,
        }
    }
    c
}

// ---- the start of a run

// The dots of leaves i to i + N - 1 with themselves.
fn own_dots<const N: usize>(area: &Area, i: usize) -> [f64; N]
    requires { i + N ≤ area.now.shape.m }
    ensures { result ≡ own_dots area.now.leaves.coords.now area.now.shape.d i N }
{
    std::array::from_fn(|e| {
        let x = area.leaf(i + e);
        vector::dot(x, x)
    })
}

// The norms of leaves i to i + 3, their roots in step.
#[tactic(auto, unfolding(rows::specs::Tabulate::tabulate))]
fn four_norms(area: &Area, i: usize) -> [f64; 4]
    requires { i + 4 ≤ area.now.shape.m }
    ensures { result ≡ norms_from area.now.leaves.coords.now area.now.shape.d i 4 }
{
    root::roots(own_dots::<4>(area, i))
}

// The norm of each leaf becomes its scale: by fours, then singly. The loops of this shape share only their borders: one
// function of them would take two closures that write an area.
fn leaf_norms(area: &mut Area)
    ensures same { Same area.old area.new }
    ensures state { let z = area.old.shape in
        let l = area.old.leaves in
        state_of area.new
        ≡ put_scale (norms_up_to l.coords.now z.d z.m) (state_of area.old) }
{
    let m = area.shape.m;
    for b in 0..m / 4 {
        let to = 4 * b;
        let norms = four_norms(area, to);
        area.scale[to..to + 4].copy_from_slice(&norms);
    }
    for i in m - m % 4..m {
        area.scale[i] = vector::norm(area.leaf(i));
    }
}

// Everything but the centres as before the first round.
fn start(area: &mut Area)
    ensures same { Same area.old area.new }
    ensures state { let z = area.old.shape in
        let l = area.old.leaves in
        state_of area.new ≡ started_from l.coords.now z.m z.k
        z.d area.old.centers.now }
{
    rows::fill(area.low, -1.0 / 0.0);
    rows::fill(area.high, 1.0 / 0.0);
    rows::fill(area.served, -1.0 / 0.0);
    rows::fill(area.drift, 1.0);
    rows::fill(area.labels, 0);
    leaf_norms(area);
}

// ---- a whole run

// What a run ends with: its cohesion and counts, and the generator's word after it.
#[derive(Clone, Copy)]
pub struct RunEnd {
    pub cohesion: f64,
    pub counts: counts::Counts,
    pub generator: u64,
}

// One run of spherical k-means: seeding, rounds and cohesion. The seeding's distances stand in the place of the lower
// bounds, its chances in that of the upper ones. Labels, centres and the sums of the groups stay in the area.
pub fn run(area: &mut Area, generator: u64, rounds: Rounds) -> RunEnd
    ensures same { Same area.old area.new }
    ensures run_done { RunDone (result_in area.old rounds.most generator) (state_of area.new) result }
    ensures run_left { RunLeft area.new }
{
    let problem = Problem {
        shape: area.shape,
        leaves: area.leaves,
    };
    let next = kmeans_seeding::seed(problem, area.centers, area.low, area.high, generator);
    start(area);
    let c = lloyd(area, rounds);
    let cohesion = kmeans_sums::cohesion_of(area);
    RunEnd {
        cohesion,
        counts: c,
        generator: next,
    }
}
