// One run of the mixture of von Mises-Fisher distributions in its work area (vmf.rs, movmf_once; document 01,
// 'Mixture'): the warm start, then rounds of E-step and M-step.
#![tactic(auto)]

ghost use Rattle.std.specs.Prelude.{◌≡◌, ◌+◌, ◌*◌, ◌<◌, ◌≤◌, true, length};
ghost use Rattle.std.specs.Float.{inf};
ghost use Rattle.kmeans_layout.specs.Sized.{Labelled};
ghost use Rattle.kmeans_sums.specs.Sums.{sums_up_to};
ghost use Rattle.mixture_run.specs.Sized.{SizedArea};
ghost use Rattle.mixture_run.specs.Mixture.{em_round, stops_at, em_from};
ghost use Rattle.mixture_run.specs.Fits.{warm_of};
ghost use Rattle.mixture_run.specs.Areas.{parts_of, model_of, em_of, em_in, started_with, SameGroups};
ghost use Rattle.mixture_run.specs.Areas.{once_in, Same, WarmDone, RunDone};

mod concentration;
mod expectation;
pub mod layout;
mod maximization;
mod start;

use kmeans_layout::Problem;
use layout::{Area, Groups};
use limits::Rounds;
use mixture_kappa::{Kappa, Settings};

// The rounds of the warm start.
const WARM_ROUNDS: usize = 50;

// One round; its log-likelihood.
fn em_round(area: &mut Groups, kappa: Kappa) -> f64
    ensures same { SameGroups area.old area.new }
    ensures round { let z = area.old.shape in
        let l = area.old.leaves in
        em_of (parts_of area.new) result ≡ em_round kappa l.weights.now l.coords.now
        z.m z.k z.d (model_of (parts_of area.old)) }
{
    expectation::put_log_coefficients(area);
    let loglik = expectation::expect(area);
    maximization::maximize_model(area, kappa);
    loglik
}

// Whether round `it` is the last, by the log-likelihood before it and its own.
fn stops_at(it: usize, old: f64, new: f64) -> bool
    ensures { result ≡ stops_at it old new }
{
    (it > 0) & (float::abs(new - old) <= 1e-7 * float::max(float::abs(old), 1.0))
}

// Rounds until the log-likelihood stands, at most `rounds`; the last log-likelihood.
#[tactic(auto, using(crate::proofs::Rounds::em_turn, crate::proofs::Rounds::em_end))]
fn em(area: &mut Groups, kappa: Kappa, rounds: usize) -> f64
    ensures same { SameGroups area.old area.new }
    ensures rounds_done { let z = area.old.shape in
        let l = area.old.leaves in
        em_of (parts_of area.new) result ≡ em_from kappa l.weights.now
        l.coords.now z.m z.k z.d rounds 0
        (em_of (parts_of area.old) (inf true)) }
{
    let mut loglik = -1.0 / 0.0;
    for it in 0..rounds {
        let new = em_round(area, kappa);
        let stops = stops_at(it, loglik, new);
        loglik = new;
        if stops {
            break;
        }
    }
    loglik
}

// What a run answers: its log-likelihood, and the counts of its warm start.
#[derive(Clone, Copy)]
pub struct RunEnd {
    pub loglik: f64,
    pub counts: counts::Counts,
}

// The warm start, in the rest of an area and its counts. Its centres, the sums of its groups and its labels stay. They
// are handed over and come back: a run says what they hold in the end, and not that they are where they were.
fn warm_start<'a>(
    problem: Problem<'a>,
    centers: &mut &'a mut [f64],
    sums: &mut &'a mut [f64],
    labels: &mut &'a mut [u32],
    rest: &mut [f64],
    counts: &mut [u32],
    seed: u64,
) -> kmeans_lloyd::RunEnd
    requires sized { let z = problem.shape in
        SizedArea z.m z.k z.d centers.old.now sums.old.now rest.old labels.old.now counts.old }
    requires labelled { Labelled problem.shape.m problem.shape.k labels.old.now }
    ensures sized { let z = problem.entry.shape in
        SizedArea z.m z.k z.d centers.new.now sums.new.now rest.new labels.new.now counts.new }
    ensures labelled { Labelled problem.entry.shape.m problem.entry.shape.k labels.new.now }
    ensures done { let z = problem.entry.shape in
        let l = problem.entry.leaves in
        WarmDone (warm_of l.weights.now l.coords.now z.m z.k z.d seed) centers.new.now labels.new.now result }
    ensures sums { let z = problem.entry.shape in
        let l = problem.entry.leaves in
        sums.new.now ≡ sums_up_to l.weights.now l.coords.now labels.new.now z.k z.d z.m }
{
    let shape = problem.shape;
    let (scale, rest) = rest.split_at_mut(shape.m);
    let (low, rest) = rest.split_at_mut(shape.m);
    let (high, rest) = rest.split_at_mut(shape.m);
    let (served, rest) = rest.split_at_mut(shape.m);
    let (drift, _) = rest.split_at_mut(shape.k);
    let mut warm = kmeans_layout::Area {
        shape,
        leaves: problem.leaves,
        centers: std::mem::replace(centers, &mut []),
        sums: std::mem::replace(sums, &mut []),
        scale,
        low,
        high,
        served,
        drift,
        labels: std::mem::replace(labels, &mut []),
        counts,
    };
    let end = kmeans_lloyd::run(&mut warm, seed, Rounds { most: WARM_ROUNDS });
    *centers = warm.centers;
    *sums = warm.sums;
    *labels = warm.labels;
    end
}

// The rounds after a warm start, in the rest of an area: first the concentrations of the labelled groups. The labels
// are only read: they are lent as `&mut`, so that it is known that they stay.
fn run_rounds(
    problem: Problem,
    centers: &mut [f64],
    sums: &mut [f64],
    rest: &mut [f64],
    labels: &mut [u32],
    s: Settings,
) -> f64
    requires sized { let z = problem.shape in
        (length centers.old ≡ z.k * z.d) × (length sums.old ≡ z.k * z.d)
        × (z.k + z.k + z.k + z.k + z.k + z.m * z.k ≤ length rest.old) }
    requires labelled { (length labels.old ≡ problem.shape.m)
        × (Labelled problem.shape.m problem.shape.k labels.old) }
    ensures same { labels.new ≡ labels.old }
    ensures done { let z = problem.entry.shape in
        let l = problem.entry.leaves in
        em_in z.m z.k centers.new rest.new result ≡ em_from s.kappa l.weights.now l.coords.now z.m z.k z.d s.rounds 0
        (started_with s.kappa l.weights.now labels.old z.m z.k z.d centers.old sums.old) }
{
    let shape = problem.shape;
    let k = shape.k;
    let (weights, rest) = rest.split_at_mut(k);
    let (kappas, rest) = rest.split_at_mut(k);
    let (log_coefficients, rest) = rest.split_at_mut(k);
    let (totals, rest) = rest.split_at_mut(k);
    let (norms, rest) = rest.split_at_mut(k);
    let (responsibilities, _) = rest.split_at_mut(shape.m * k);
    let mut area = Groups {
        shape,
        leaves: problem.leaves,
        directions: centers,
        sums,
        weights,
        kappas,
        log_coefficients,
        totals,
        norms,
        responsibilities,
    };
    start::init_kappas(&mut area, labels, s.kappa);
    start::clear(&mut area);
    em(&mut area, s.kappa, s.rounds)
}

// One run: the warm start, the concentrations of its groups, and the rounds. What it found stays in the area.
pub fn movmf_once(area: &mut Area, s: Settings) -> RunEnd
    ensures same { Same area.old area.new }
    ensures done { RunDone (once_in area.old s) area.new result }
{
    let problem = Problem {
        shape: area.shape,
        leaves: area.leaves,
    };
    let warm = warm_start(
        problem,
        &mut area.centers,
        &mut area.sums,
        &mut area.labels,
        area.rest,
        area.counts,
        s.seed,
    );
    let loglik = run_rounds(problem, area.centers, area.sums, area.rest, area.labels, s);
    let counts = warm.counts;
    RunEnd { loglik, counts }
}
