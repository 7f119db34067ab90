// The mixture fit that chooses the number of groups, the public entries (vmf.rs, movmf_auto_with and movmf_auto;
// document 01, 'Choosing the number of groups' and 'Refusals by call'): what must be refused is, and the numbers of the
// clamped range are fitted.
#![tactic(auto)]

ghost use Rattle.std.specs.Prelude.{◌≡◌, length};
ghost use Rattle.mixture_kappa.specs.declared.Kappa.TheVariants.{Free};
ghost use Rattle.mixture_outputs.specs.Outputs.{arrays};
ghost use Rattle.mixture_outputs.specs.Lent.{outputs_of, SameArrays};
ghost use Rattle.auto.specs.Outcome.{answered, outcome};
ghost use Rattle.auto.specs.Answers.{number_of_not_chosen, AnswerLabelsFirst};
ghost use Rattle.auto.specs.Best.{AnswerKeepsBest};
ghost use Rattle.auto.specs.Tallied.{answer_of};
ghost use Rattle.auto.specs.declared.NotChosen.TheVariants.{Refused};

use limits::{Leaves, Refusal};
use mixture_kappa::Settings;
use mixture_outputs::Arrays;

// What a call finds: the number kept, its log-likelihood and score, and the counts.
#[derive(Clone, Copy, Debug, PartialEq)]
pub struct Chosen {
    pub k: usize,
    pub loglik: f64,
    pub score: f64,
    pub counts: counts::Counts,
}

// Why a call keeps no number: the refusal; or no score lies below +infinity, which is 7 and comes with the counts.
#[derive(Clone, Copy, Debug, PartialEq, Eq)]
pub enum NotChosen {
    Refused(Refusal),
    Unscored(counts::Counts),
}

impl From<Refusal> for NotChosen {
    ghost from_gives = { λ r e. e ≡ Refused r };

    fn from(r: Refusal) -> NotChosen {
        NotChosen::Refused(r)
    }
}

impl From<NotChosen> for u32 {
    ghost from_gives = { λ e n. n ≡ number_of_not_chosen e };

    fn from(e: NotChosen) -> u32 {
        match e {
            NotChosen::Refused(r) => u32::from(r),
            NotChosen::Unscored(_) => 7,
        }
    }
}

// The answer after the last number.
fn answer(t: auto_tries::Tally) -> Result<Chosen, NotChosen>
    ensures { result ≡ answer_of t }
{
    match t.kept {
        Some(n) => Ok(Chosen {
            k: n.number.k,
            loglik: n.loglik,
            score: n.number.score,
            counts: t.counts,
        }),
        None => Err(NotChosen::Unscored(t.counts)),
    }
}

// The mixture fit of these leaves with the best number of groups. The two work arrays come singly, since a struct of
// them would have to say that their lengths stay.
fn fit(
    leaves: Leaves,
    k_min: usize,
    k_max: usize,
    s: Settings,
    o: &mut Arrays,
    work: &mut [f64],
    work_u32: &mut [u32],
) -> Result<Chosen, NotChosen>
    ensures same { SameArrays o.old o.new }
    ensures fitted { answered result (outputs_of o.new) ≡ outcome (outputs_of o.old) leaves.entry.weights.now
        leaves.entry.coords.now leaves.entry.d s k_min k_max (length work.old) (length work_u32.old) }
    ensures keeps_best { AnswerKeepsBest (outputs_of o.old) leaves.entry.weights.now leaves.entry.coords.now
        leaves.entry.d s k_min k_max (length work.old) (length work_u32.old) result (outputs_of o.new) }
    ensures labels_first { AnswerLabelsFirst (length leaves.entry.weights.now) result (outputs_of o.new) }
{
    let hi = auto_choice::highest_number(k_max, leaves.weights.len());
    let lo = auto_choice::lowest_number(k_min, hi);
    let l = o.lengths(work.len(), work_u32.len());
    mixture_outputs::check(leaves, hi, hi <= limits::MOST_GROUPS, s, l)?;
    let ln_total = logarithm::ln(vector::sum(leaves.weights));
    answer(auto_tries::fit_range(leaves, lo, hi, s, ln_total, o, work, work_u32))
}

// The mixture fit of m leaves (m weights, m * d coordinates) with the best number of groups from k_min to k_max, as far
// as there are leaves. The outputs are those of `movmf_with` and must be long enough for the greatest number; a refusal
// changes none of them. The work arrays' contents afterwards are free.
pub fn movmf_auto_with(
    weights: &[f64],
    coords: &[f64],
    d: usize,
    k_min: usize,
    k_max: usize,
    s: Settings,
    labels: &mut [u32],
    responsibilities: &mut [f64],
    group_weights: &mut [f64],
    directions: &mut [f64],
    concentrations: &mut [f64],
    logw: &mut [f64],
    work: &mut [f64],
    work_u32: &mut [u32],
) -> Result<Chosen, NotChosen>
    ensures logw_after { answered result (arrays labels.new responsibilities.new
        group_weights.new directions.new concentrations.new logw.new)
        ≡ outcome (arrays labels.old responsibilities.old group_weights.old
        directions.old concentrations.old logw.old)
        weights.now coords.now d s k_min k_max
        (length work.old) (length work_u32.old) }
    ensures answer_keeps_best { AnswerKeepsBest (arrays labels.old responsibilities.old
        group_weights.old directions.old concentrations.old logw.old)
        weights.now coords.now d s k_min k_max
        (length work.old) (length work_u32.old) result
        (arrays labels.new responsibilities.new group_weights.new
        directions.new concentrations.new logw.new) }
    ensures answer_labels_first { AnswerLabelsFirst (length weights.now) result
        (arrays labels.new responsibilities.new group_weights.new
        directions.new concentrations.new logw.new) }
{
    let mut o = Arrays {
        labels,
        responsibilities,
        weights: group_weights,
        directions,
        concentrations,
        logw,
    };
    let leaves = Leaves { weights, coords, d };
    fit(leaves, k_min, k_max, s, &mut o, work, work_u32)
}

// The same, each group with a concentration of its own.
pub fn movmf_auto(
    weights: &[f64],
    coords: &[f64],
    d: usize,
    k_min: usize,
    k_max: usize,
    rounds: usize,
    seed: u64,
    labels: &mut [u32],
    responsibilities: &mut [f64],
    group_weights: &mut [f64],
    directions: &mut [f64],
    concentrations: &mut [f64],
    logw: &mut [f64],
    work: &mut [f64],
    work_u32: &mut [u32],
) -> Result<Chosen, NotChosen>
    ensures logw_after { answered result (arrays labels.new responsibilities.new
        group_weights.new directions.new concentrations.new logw.new)
        ≡ outcome (arrays labels.old responsibilities.old group_weights.old
        directions.old concentrations.old logw.old)
        weights.now coords.now d
        (record { rounds = rounds; seed = seed; kappa = Free }) k_min k_max (length work.old)
        (length work_u32.old) }
    ensures answer_keeps_best { AnswerKeepsBest (arrays labels.old responsibilities.old
        group_weights.old directions.old concentrations.old logw.old)
        weights.now coords.now d
        (record { rounds = rounds; seed = seed; kappa = Free }) k_min k_max (length work.old)
        (length work_u32.old) result (arrays labels.new responsibilities.new
        group_weights.new directions.new concentrations.new logw.new) }
    ensures answer_labels_first { AnswerLabelsFirst (length weights.now) result
        (arrays labels.new responsibilities.new group_weights.new
        directions.new concentrations.new logw.new) }
{
    let s = Settings {
        rounds,
        seed,
        kappa: mixture_kappa::Kappa::Free,
    };
    movmf_auto_with(
        weights,
        coords,
        d,
        k_min,
        k_max,
        s,
        labels,
        responsibilities,
        group_weights,
        directions,
        concentrations,
        logw,
        work,
        work_u32,
    )
}
