// The mixture of von Mises-Fisher distributions, the public entries (vmf.rs, movmf_with and movmf; document 01,
// 'Mixture' and 'Refusals by call'): what must be refused is, the four runs are made, and the outputs are filled from
// the area of the kept one.
#![tactic(auto)]

ghost use Rattle.std.specs.Prelude.{◌≡◌, length};
ghost use Rattle.mixture_kappa.specs.declared.Kappa.TheVariants.{Free};
ghost use Rattle.mixture_outputs.specs.Outputs.{arrays, lengths_of};
ghost use Rattle.mixture_outputs.specs.Lent.{outputs_of, SameArrays};
ghost use Rattle.limits.specs.Refusals.{number_in};
ghost use Rattle.movmf.specs.Refusals.{refusal_of};
ghost use Rattle.movmf.specs.Outcome.{answered, outcome};
ghost use Rattle.movmf.specs.Answers.{AnswersWith, AnswerLabelsFirst};

use kmeans_layout::Problem;
use limits::{Leaves, Refusal, Shape};
use mixture_kappa::Settings;
use mixture_outputs::Arrays;
use mixture_restarts::Halves;

// What a call finds: k, the log-likelihood and the counts.
#[derive(Clone, Copy, Debug, PartialEq)]
pub struct Fitted {
    pub k: usize,
    pub loglik: f64,
    pub counts: counts::Counts,
}

// The mixture fit of these leaves with k groups. The two work arrays come singly, since a struct of them would have to
// say that their lengths stay.
fn fit(
    leaves: Leaves,
    k: usize,
    s: Settings,
    o: &mut Arrays,
    work: &mut [f64],
    work_u32: &mut [u32],
) -> Result<Fitted, Refusal>
    ensures same { SameArrays o.old o.new }
    ensures fitted { answered result (outputs_of o.new) ≡ outcome (outputs_of o.old) leaves.entry.weights.now
        leaves.entry.coords.now leaves.entry.d k s (length work.old) (length work_u32.old) }
    ensures labels_first { AnswerLabelsFirst (length leaves.entry.weights.now) result (outputs_of o.new) }
{
    let l = o.lengths(work.len(), work_u32.len());
    let m = leaves.weights.len();
    let d = leaves.d;
    mixture_outputs::check(leaves, k, limits::groups_ok(k, m), s, l)?;
    let shape = Shape { m, k, d };
    let mut halves = Halves::of(Problem { shape, leaves }, work, work_u32);
    let r = mixture_restarts::four_runs(&mut halves, s);
    mixture_outputs::fill_outputs(o, mixture_restarts::kept(&halves, r));
    let loglik = mixture_restarts::kept_loglik(r);
    let counts = r.counts;
    Ok(Fitted { k, loglik, counts })
}

// The mixture fit of m leaves (m weights, m * d coordinates) with k groups. The outputs hold m labels, m * k
// responsibilities, k weights, k * d directions, k concentrations and k logw and may be longer; a refusal changes none
// of them. The work arrays' contents afterwards are free.
pub fn movmf_with(
    weights: &[f64],
    coords: &[f64],
    d: usize,
    k: usize,
    s: Settings,
    labels: &mut [u32],
    responsibilities: &mut [f64],
    group_weights: &mut [f64],
    directions: &mut [f64],
    concentrations: &mut [f64],
    logw: &mut [f64],
    work: &mut [f64],
    work_u32: &mut [u32],
) -> Result<Fitted, Refusal>
    ensures logw_after { answered result (arrays labels.new responsibilities.new
        group_weights.new directions.new concentrations.new logw.new)
        ≡ outcome (arrays labels.old responsibilities.old group_weights.old
        directions.old concentrations.old logw.old)
        weights.now coords.now d k s
        (length work.old) (length work_u32.old) }
    ensures answers_with { AnswersWith (number_in (refusal_of weights.now coords.now d k
        s
        (lengths_of (arrays labels.old responsibilities.old group_weights.old
        directions.old concentrations.old logw.old)
        (length work.old) (length work_u32.old)))) result }
    ensures answer_labels_first { AnswerLabelsFirst (length weights.now) result
        (arrays labels.new responsibilities.new group_weights.new
        directions.new concentrations.new logw.new) }
{
    let mut o = Arrays {
        labels,
        responsibilities,
        weights: group_weights,
        directions,
        concentrations,
        logw,
    };
    let leaves = Leaves { weights, coords, d };
    fit(leaves, k, s, &mut o, work, work_u32)
}

// The same, each group with a concentration of its own.
pub fn movmf(
    weights: &[f64],
    coords: &[f64],
    d: usize,
    k: usize,
    rounds: usize,
    seed: u64,
    labels: &mut [u32],
    responsibilities: &mut [f64],
    group_weights: &mut [f64],
    directions: &mut [f64],
    concentrations: &mut [f64],
    logw: &mut [f64],
    work: &mut [f64],
    work_u32: &mut [u32],
) -> Result<Fitted, Refusal>
    ensures logw_after { answered result (arrays labels.new responsibilities.new
        group_weights.new directions.new concentrations.new logw.new)
        ≡ outcome (arrays labels.old responsibilities.old group_weights.old
        directions.old concentrations.old logw.old)
        weights.now coords.now d k (record { rounds = rounds; seed = seed; kappa = Free })
        (length work.old) (length work_u32.old) }
    ensures answers_with { AnswersWith (number_in (refusal_of weights.now coords.now d k
        (record { rounds = rounds; seed = seed; kappa = Free })
        (lengths_of (arrays labels.old responsibilities.old group_weights.old
        directions.old concentrations.old logw.old)
        (length work.old) (length work_u32.old)))) result }
    ensures answer_labels_first { AnswerLabelsFirst (length weights.now) result
        (arrays labels.new responsibilities.new group_weights.new
        directions.new concentrations.new logw.new) }
{
    let s = Settings {
        rounds,
        seed,
        kappa: mixture_kappa::Kappa::Free,
    };
    movmf_with(
        weights,
        coords,
        d,
        k,
        s,
        labels,
        responsibilities,
        group_weights,
        directions,
        concentrations,
        logw,
        work,
        work_u32,
    )
}
