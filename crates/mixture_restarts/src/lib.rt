// The four runs of a mixture fit (vmf.rs, movmf_with; document 01, 'Mixture'): they are played in turn in one area, and
// what the held one found stands beside it, so that the held one's and the last one's are there at the end; the keeper
// hands back the kept one's and makes no copy.
#![tactic(auto)]

ghost use Rattle.std.specs.Prelude.{◌≡◌, ◌+◌, ◌<◌, ◌≤◌, length, Float};
ghost use Rattle.counts.specs.Counts.{AtMost, of_runs};
ghost use Rattle.kmeans_layout.specs.Sized.{half, work_u32_total};
ghost use Rattle.kmeans_layout.specs.Kept.{kept_of};
ghost use Rattle.mixture_run.specs.Areas.{area_em, found_em, Same, RunDone};
ghost use Rattle.mixture_restarts.specs.Kept.{held_em, run_in, runs_in, Holds, OneMore, Both, kept_loglik};

pub mod layout;

use kmeans_layout::{Held, Problem};
use layout::Store;
use mixture_kappa::Settings;
use mixture_run::RunEnd;
use mixture_run::layout::{Area, Found};

// The halves of the lent f64 array: what the held run found stands in one, the other is the area of the next run. The
// u32 array serves the warm starts alone, one after the other, so they share it.
#[derive(Drop)]
pub struct Halves<'a> {
    pub held: Store<'a>,
    pub free: Area<'a>,
    ghost alike: { held.shape ≡ free.shape },
}

impl<'a> Halves<'a> {
    // The halves in the two lent arrays.
    pub fn of(problem: Problem<'a>, work: &'a mut [f64], work_u32: &'a mut [u32]) -> Halves<'a>
        requires { let z = problem.shape in
            (half z.m z.k z.d + half z.m z.k z.d ≤ length work.old)
            × (work_u32_total z.m z.k ≤ length work_u32.old) }
        ensures { (result.free.shape ≡ problem.entry.shape) × (result.free.leaves ≡ problem.entry.leaves) }
    {
        let shape = problem.shape;
        let (first, second) = work.split_at_mut(kmeans_layout::half(shape));
        let (first_u32, _) = work_u32.split_at_mut(shape.m + shape.k);
        Halves {
            held: Store::of(shape, first),
            free: Area::of(problem, second, first_u32),
        }
    }
}

// Run t in an area.
fn run(area: &mut Area, s: Settings, t: u64) -> RunEnd
    ensures same { Same area.old area.new }
    ensures done { RunDone (run_in area.old s t) area.new result }
{
    let own = Settings {
        seed: rng::restart_seed(s.seed, t),
        ..s
    };
    mixture_run::movmf_once(area, own)
}

// What the run in the free area found is held, and its arrays are free.
fn hold(halves: &mut Halves)
    ensures same { (halves.new.held.shape ≡ halves.old.held.shape) × (Same halves.old.free halves.new.free) }
    ensures held { (loglik : Float) → held_em halves.new.held loglik ≡ area_em halves.old.free loglik }
{
    layout::exchange(&mut halves.held, &mut halves.free);
}

// Run t in the free area; where it is kept, what it found is held.
fn one_more(halves: &mut Halves, h: Held, s: Settings, t: u64) -> Held
    requires { (t < 4) × (AtMost (of_runs t) h.counts) }
    ensures { OneMore (run_in halves.old.free s t) halves.old.free halves.new.free halves.old.held halves.new.held h
        result }
{
    let r = run(&mut halves.free, s, t);
    if h.gives_way(r.loglik) {
        hold(halves);
    }
    h.after(r.loglik, r.counts)
}

// The first three runs; what is held of them.
fn first_runs(halves: &mut Halves, s: Settings) -> Held
    ensures { Holds (runs_in halves.old.free s 2) halves.old.free halves.new.free halves.new.held 3 result }
{
    let first = run(&mut halves.free, s, 0);
    hold(halves);
    let mut h = Held {
        value: first.loglik,
        counts: first.counts,
    };
    for t in 1..3 {
        h = one_more(halves, h, s, t);
    }
    h
}

// Four runs: the log-likelihood of the one held of the first three, and that of the last one, which stands in the free
// area. The counts are those of all four.
#[derive(Clone, Copy)]
pub struct Runs {
    pub held: f64,
    pub last: f64,
    pub counts: counts::Counts,
}

// All four runs.
pub fn four_runs(halves: &mut Halves, s: Settings) -> Runs
    ensures { Both (runs_in halves.old.free s 2) (run_in halves.old.free s 3) halves.old.free halves.new.free
        halves.new.held result }
{
    let h = first_runs(halves, s);
    let r = run(&mut halves.free, s, 3);
    let counts = h.counts + r.counts;
    Runs {
        held: h.value,
        last: r.loglik,
        counts,
    }
}

// ---- the keeper

// Of what is the held run's and what is the last one's, that of the kept run: the last one's, unless its log-likelihood
// is at most the held one's. Of two finds that are lent it hands back one.
pub fn keeper<T: Copy>(r: Runs, held: T, last: T) -> T
    ensures { result ≡ kept_of r.held r.last held last }
{
    if r.last <= r.held { held } else { last }
}

// The kept one's log-likelihood.
pub fn kept_loglik(r: Runs) -> f64
    ensures { result ≡ kept_loglik r.held r.last }
{
    keeper(r, r.held, r.last)
}

// What the kept one found.
#[tactic(auto, unfolding(mixture_run::specs::Areas::em_in))]
pub fn kept<'a>(halves: &'a Halves<'_>, r: Runs) -> Found<'a>
    ensures same { result.shape ≡ halves.now.free.shape }
    ensures kept { (loglik : Float) → found_em result loglik ≡ kept_of r.held r.last (held_em halves.now.held loglik)
        (area_em halves.now.free loglik) }
{
    keeper(r, halves.held.found(), halves.free.found())
}
