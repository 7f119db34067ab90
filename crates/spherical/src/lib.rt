// Spherical k-means, the public entry (vmf.rs; document 01, 'Spherical k-means' and 'Refusals by call'): what must be
// refused is, the restarts are run, and the outputs are filled from the kept one.
#![tactic(auto)]

ghost use Rattle.std.specs.Prelude.{◌≡◌, ◌≤◌, length};
ghost use Rattle.limits.specs.Refusals.{number_in};
ghost use Rattle.spherical.specs.Refusals.{arrays_ok, refusal_of};
ghost use Rattle.spherical.specs.Outcome.{Outcome, outcome};
ghost use Rattle.spherical.specs.Answers.{AnswersWith};
ghost use Rattle.spherical.specs.Work.{CountsEveryRound};

use kmeans_layout::Problem;
use kmeans_restarts::Halves;
use limits::{Leaves, Refusal, Rounds, Shape, need};

// ---- what is refused

// The lengths of the output and work arrays.
#[derive(Clone, Copy)]
struct Lengths {
    labels: usize,
    directions: usize,
    work: usize,
    work_u32: usize,
}

// The outputs and the work arrays are long enough. It takes m, k and d, since what it asks of them is tested one by
// one, and there is no Shape before all of it is.
fn arrays_ok(m: usize, k: usize, d: usize, l: Lengths) -> bool
    requires { (m ≤ 4096) × (k ≤ 64) × (d ≤ 256) }
    ensures { result ≡ arrays_ok m k d l.labels l.directions l.work l.work_u32 }
{
    let kd = k * d;
    m <= l.labels && kd <= l.directions && limits::work_ok(m, k, d, l.work, l.work_u32)
}

// The first refusal that holds, if any.
#[tactic(auto, unfolding(crate::specs::Refusals::refusal_of))]
fn check(
    leaves: Leaves,
    k: usize,
    rounds: usize,
    restarts: usize,
    l: Lengths,
) -> Result<(), Refusal>
    ensures { result ≡ refusal_of leaves.entry.weights.now leaves.entry.coords.now leaves.entry.d k rounds restarts
        l.labels l.directions l.work l.work_u32 }
{
    let m = leaves.weights.len();
    let d = leaves.d;
    need(limits::sizes_ok(m, d, leaves.coords.len()), Refusal::Sizes)?;
    need(limits::groups_ok(k, m), Refusal::Groups)?;
    need(
        rounds <= limits::MOST_ROUNDS && restarts <= limits::MOST_RESTARTS,
        Refusal::Rounds,
    )?;
    need(arrays_ok(m, k, d, l), Refusal::Arrays)?;
    limits::check_leaves(leaves)
}

// ---- the entry

// What a call finds: the cohesion and the counts.
#[derive(Clone, Copy, Debug, PartialEq)]
pub struct Clustered {
    pub cohesion: f64,
    pub counts: counts::Counts,
}

// Spherical k-means of m leaves (m weights, m * d coordinates) into k groups. The outputs hold m labels and k * d
// directions and may be longer; a refusal changes none of them. The work arrays' contents afterwards are free.
pub fn spherical_kmeans(
    weights: &[f64],
    coords: &[f64],
    d: usize,
    k: usize,
    rounds: usize,
    restarts: usize,
    seed: u64,
    labels: &mut [u32],
    directions: &mut [f64],
    work: &mut [f64],
    work_u32: &mut [u32],
) -> Result<Clustered, Refusal>
    ensures fact { ◌≡◌ {A = Outcome}
        (record { answer = result; labels = labels.new; directions = directions.new })
        (outcome labels.old directions.old weights.now coords.now d k rounds
        restarts seed (length work.old) (length work_u32.old)) }
    ensures answers_with { AnswersWith (number_in (refusal_of weights.now coords.now d k rounds
        restarts (length labels.old) (length directions.old) (length work.old)
        (length work_u32.old))) result }
    ensures counts_every_round { CountsEveryRound weights.now coords.now d k rounds seed restarts result }
{
    let leaves = Leaves { weights, coords, d };
    let l = Lengths {
        labels: labels.len(),
        directions: directions.len(),
        work: work.len(),
        work_u32: work_u32.len(),
    };
    check(leaves, k, rounds, restarts, l)?;
    let m = weights.len();
    let shape = Shape { m, k, d };
    let mut halves = Halves::of(Problem { shape, leaves }, work, work_u32);
    let h = kmeans_restarts::run_all(&mut halves, seed, Rounds { most: rounds }, restarts);
    halves.copy_out(labels, directions);
    Ok(Clustered {
        cohesion: h.held.value,
        counts: h.held.counts,
    })
}
