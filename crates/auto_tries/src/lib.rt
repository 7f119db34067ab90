// The numbers of groups fitted one after the other (vmf.rs, movmf_auto_with; document 01, 'Choosing the number of
// groups'): every number of the range is fitted once, in rising order, and the first whose score beats the one held is
// kept and written into the outputs.
#![tactic(auto)]

ghost use Rattle.std.specs.Prelude.{◌≡◌, ◌+◌, ◌-◌, ◌≤◌, length};
ghost use Rattle.logarithm.specs.Logarithm.{ln_of};
ghost use Rattle.counts.specs.Counts.{AtMost, of_runs};
ghost use Rattle.mixture_outputs.specs.Lent.{outputs_of, SameArrays};
ghost use Rattle.auto_choice.specs.Choice.{total_of};
ghost use Rattle.auto_tries.specs.Tries.{choice_of, Fittable, FitOfK, Fitted};

use auto_choice::Scored;
use counts::Counts;
use kmeans_layout::Problem;
use limits::{Leaves, Shape};
use mixture_kappa::Settings;
use mixture_outputs::Arrays;
use mixture_restarts::Halves;

// The number kept, with its score and its log-likelihood.
#[derive(Clone, Copy)]
pub struct Kept {
    pub number: Scored,
    pub loglik: f64,
}

// After some numbers: what is kept of them, if anything, and the counts of all fits.
#[derive(Clone, Copy)]
pub struct Tally {
    pub kept: Option<Kept>,
    pub counts: Counts,
}

// The choice that is held.
fn choice_of(kept: Option<Kept>) -> Option<Scored>
    ensures { result ≡ choice_of kept }
{
    Some(kept?.number)
}

// The fit of k, which is written into the outputs where its score beats the one held. The two work arrays come singly,
// since a struct of them would have to say that their lengths stay.
fn fit_of_k(
    leaves: Leaves,
    k: usize,
    s: Settings,
    ln_total: f64,
    t: Tally,
    o: &mut Arrays,
    work: &mut [f64],
    work_u32: &mut [u32],
) -> Tally
    requires fittable { Fittable (leaves.weights.now) (leaves.coords.now) k leaves.d (outputs_of o.old)
        (length work.old) (length work_u32.old) }
    requires at_most { (AtMost (of_runs 252) t.counts) × (ln_total ≡ ln_of (total_of leaves.weights.now)) }
    ensures same { SameArrays o.old o.new }
    ensures fit { FitOfK leaves.entry.weights.now leaves.entry.coords.now leaves.entry.d s k t result
        (outputs_of o.old) (outputs_of o.new) }
{
    let m = leaves.weights.len();
    let d = leaves.d;
    let shape = Shape { m, k, d };
    let mut halves = Halves::of(Problem { shape, leaves }, work, work_u32);
    let r = mixture_restarts::four_runs(&mut halves, s);
    let loglik = mixture_restarts::kept_loglik(r);
    let score = auto_choice::score_at(s.kappa, k, d, loglik, ln_total);
    let counts = t.counts + r.counts;
    if auto_choice::beats(score, choice_of(t.kept)) {
        mixture_outputs::fill_outputs(o, mixture_restarts::kept(&halves, r));
        let number = Scored { k, score };
        return Tally {
            kept: Some(Kept { number, loglik }),
            counts,
        };
    }
    Tally { counts, ..t }
}

// Every number from lo to hi, in rising order. The two work arrays come singly, as those of `fit_of_k` do.
pub fn fit_range(
    leaves: Leaves,
    lo: usize,
    hi: usize,
    s: Settings,
    ln_total: f64,
    o: &mut Arrays,
    work: &mut [f64],
    work_u32: &mut [u32],
) -> Tally
    requires fittable { Fittable (leaves.weights.now) (leaves.coords.now) hi leaves.d (outputs_of o.old)
        (length work.old) (length work_u32.old) }
    requires le_lo { (1 ≤ lo) × (lo ≤ hi) × (ln_total ≡ ln_of (total_of leaves.weights.now)) }
    ensures same { SameArrays o.old o.new }
    ensures fitted { Fitted leaves.entry.weights.now leaves.entry.coords.now leaves.entry.d s (outputs_of o.old) lo
        (hi + 1 - lo) result (outputs_of o.new) }
{
    let mut t = Tally {
        kept: None,
        counts: Counts::default(),
    };
    for k in lo..hi + 1 {
        t = fit_of_k(leaves, k, s, ln_total, t, o, work, work_u32);
    }
    t
}
