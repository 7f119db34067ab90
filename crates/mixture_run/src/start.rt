// What stands before the first round: the concentrations of the labelled groups, weights 1 / k, no responsibilities.
ghost use Rattle.std.specs.Prelude.{◌≡◌, ◌*◌, length, replicate};
ghost use Rattle.float.specs.Arithmetic.{plus_zero, sum_from};
ghost use Rattle.kmeans_layout.specs.Sized.{Labelled};
ghost use Rattle.mixture_run.specs.Mixture.{even_weight};
ghost use Rattle.mixture_run.specs.Fits.{label_totals_up_to, start_kappas_by};
ghost use Rattle.mixture_run.specs.Areas.{parts_of, with_weights, with_totals, with_resp, SameGroups};

use super::layout::Groups;
use super::{concentration, maximization};
use mixture_kappa::Kappa;

// The weights of the groups that the labels make. The leaves go by number, of which labels and weights have one each.
#[tactic(auto, using(crate::proofs::LabelTotals::totals_turn), unfolding(crate::specs::Fits::label_totals_up_to))]
fn label_totals(area: &mut Groups, labels: &[u32])
    requires { (length labels.now ≡ area.old.shape.m) × (Labelled area.old.shape.m area.old.shape.k labels.now) }
    ensures same { SameGroups area.old area.new }
    ensures parts { let z = area.old.shape in
        let l = area.old.leaves in
        parts_of area.new ≡ with_totals (label_totals_up_to l.weights.now
        labels.now z.k z.m) (parts_of area.old) }
{
    rows::fill(area.totals, 0.0);
    for i in 0..area.shape.m {
        let c = labels[i] as usize;
        area.totals[c] = area.totals[c] + area.leaves.weights[i];
    }
}

// The whole weight of the labelled groups.
fn labelled_weight(area: &Groups) -> f64
    ensures { result ≡ sum_from plus_zero area.now.totals.now }
{
    vector::fold(area.totals)
}

// The concentrations of the groups that the labels make, whose resultants stand in the area.
pub(crate) fn init_kappas(area: &mut Groups, labels: &[u32], kappa: Kappa)
    requires { (length labels.now ≡ area.old.shape.m) × (Labelled area.old.shape.m area.old.shape.k labels.now) }
    ensures same { SameGroups area.old area.new }
    ensures parts { let z = area.old.shape in
        let l = area.old.leaves in
        let p = parts_of area.old in
        let q = parts_of area.new in
        let totals = label_totals_up_to l.weights.now labels.now z.k z.m in
        (q.directions ≡ p.directions)
        × (q.kappas ≡ start_kappas_by kappa z.k z.d p.sums totals) }
{
    label_totals(area, labels);
    maximization::put_norms(area);
    let whole = labelled_weight(area);
    concentration::concentrate(area, kappa, whole);
}

// Weights 1 / k, and no responsibilities.
pub(crate) fn clear(area: &mut Groups)
    ensures same { SameGroups area.old area.new }
    ensures parts { let z = area.old.shape in
        parts_of area.new ≡ with_resp (replicate (z.m * z.k) plus_zero)
        (with_weights (replicate z.k (even_weight z.k)) (parts_of area.old)) }
{
    rows::fill(area.weights, maximization::even_weight(area.shape.k));
    rows::fill(area.responsibilities, 0.0);
}
