// The restarts of spherical k-means (vmf.rs, spherical_kmeans; document 01, 'Spherical k-means'): they run in two
// areas, the run of the greatest cohesion is kept, and what it found is copied out.
#![tactic(auto)]

ghost use Rattle.std.specs.Prelude.{◌≡◌, ◌+◌, ◌*◌, ◌≤◌, ◌++◌, length, drop};
ghost use Rattle.counts.specs.Counts.{AtMost, of_runs};
ghost use Rattle.limits.specs.Limits.{most_restarts};
ghost use Rattle.kmeans_layout.specs.Sized.{half, work_u32_total};
ghost use Rattle.kmeans_layout.specs.Areas.{Same};
ghost use Rattle.kmeans_lloyd.specs.Runs.{result_in};
ghost use Rattle.kmeans_restarts.specs.Runs.{runs_in, Holds, Restarted};

use kmeans_layout::{Area, Held, Problem};
use limits::Rounds;

// Two areas of the same sizes and leaves, in the halves of the lent work arrays: the held run stands in one, the other
// is free for the next. That of mixture_restarts is another: it holds one area, and beside it what is held.
#[derive(Drop)]
pub struct Halves<'a> {
    pub held: Area<'a, 'a>,
    pub free: Area<'a, 'a>,
    ghost alike: { Same held free },
}

impl<'a> Halves<'a> {
    // The areas in the two lent arrays.
    pub fn of(problem: Problem<'a>, work: &'a mut [f64], work_u32: &'a mut [u32]) -> Halves<'a>
        requires { let z = problem.shape in
            (half z.m z.k z.d + half z.m z.k z.d ≤ length work.old)
            × (work_u32_total z.m z.k + work_u32_total z.m z.k ≤ length work_u32.old) }
        ensures { (result.held.shape ≡ problem.entry.shape) × (result.held.leaves ≡ problem.entry.leaves) }
    {
        let shape = problem.shape;
        let (first, second) = work.split_at_mut(kmeans_layout::half(shape));
        let (first_u32, second_u32) = work_u32.split_at_mut(shape.m + shape.k);
        Halves {
            held: Area::of(problem, first, first_u32),
            free: Area::of(problem, second, second_u32),
        }
    }

    // The labels and centres of the held run, copied out.
    pub fn copy_out(&self, labels: &mut [u32], directions: &mut [f64])
        requires { let z = self.now.held.shape in (z.m ≤ length labels.old) × (z.k * z.d ≤ length directions.old) }
        ensures labels_after { labels.new ≡ self.now.held.labels.now ++ drop self.now.held.shape.m labels.old }
        ensures directions_after { let z = self.now.held.shape in
            directions.new ≡ self.now.held.centers.now ++ drop (z.k * z.d) directions.old }
    {
        fill_outputs(labels, directions, self.held.labels, self.held.centers);
    }
}

// After some runs: what is held of them, and the generator.
#[derive(Clone, Copy)]
pub struct Restarts {
    pub held: Held,
    pub generator: u64,
}

// One restart more, in the free area; where it is kept, the areas change places.
fn restart(halves: &mut Halves, h: Restarts, rounds: Rounds) -> Restarts
    requires { AtMost (of_runs 64) h.held.counts }
    ensures { Restarted (result_in halves.old.held rounds.most h.generator) halves.old.held halves.new.held h result }
{
    let r = kmeans_lloyd::run(&mut halves.free, h.generator, rounds);
    if h.held.gives_way(r.cohesion) {
        std::mem::swap(&mut halves.held, &mut halves.free);
    }
    Restarts {
        held: h.held.after(r.cohesion, r.counts),
        generator: r.generator,
    }
}

// All restarts; what is held in the end.
pub fn run_all(halves: &mut Halves, seed: u64, rounds: Rounds, restarts: usize) -> Restarts
    requires { restarts ≤ most_restarts }
    ensures { Holds (runs_in halves.old.held rounds.most restarts seed) halves.old.held halves.new.held 64 result }
{
    let first = kmeans_lloyd::run(&mut halves.held, seed, rounds);
    let held = Held {
        value: first.cohesion,
        counts: first.counts,
    };
    let mut h = Restarts {
        held,
        generator: first.generator,
    };
    for _ in 1..restarts {
        h = restart(halves, h, rounds);
    }
    h
}

// The labels and centres of a run, copied out. They come as slices: nothing is asked of what they hold.
pub fn fill_outputs(
    labels: &mut [u32],
    directions: &mut [f64],
    found_labels: &[u32],
    found_centers: &[f64],
)
    requires { (length found_labels.now ≤ length labels.old)
        × (length found_centers.now ≤ length directions.old) }
    ensures labels_after { labels.new ≡ found_labels.now ++ drop (length found_labels.now) labels.old }
    ensures directions_after { directions.new
        ≡ found_centers.now ++ drop (length found_centers.now) directions.old }
{
    rows::copy_front(labels, found_labels);
    rows::copy_front(directions, found_centers);
}
