// The M-step: the sufficient statistics of the groups from the responsibilities, and from them weights, directions and
// concentrations.
ghost use Rattle.std.specs.Prelude.{◌≡◌, cond, ◌+◌, ◌*◌, ◌<◌, ◌≤◌, length, get_or};
ghost use Rattle.std.specs.Float.{nan, binary64};
ghost use Rattle.std.specs.Float.Ieee.{mul, lt};
ghost use Rattle.float.specs.Arithmetic.{plus_zero, minus_zero, sum_from};
ghost use Rattle.rows.specs.Rows.{part, put_part, row_of};
ghost use Rattle.rows.specs.Tabulate.{tabulate};
ghost use Rattle.vector.specs.Vectors.{norm_of, divided_by};
ghost use Rattle.kmeans_sums.specs.Sums.{norms_up_to};
ghost use Rattle.mixture_run.specs.Mixture.{accumulate_group, accumulate_leaf, statistics_up_to, even_weight};
ghost use Rattle.mixture_run.specs.Mixture.{weight_by, weight_at, directions_up_to, maximize};
ghost use Rattle.mixture_run.specs.Areas.{parts_of, model_of, statistics_of, with_directions, with_weights};
ghost use Rattle.mixture_run.specs.Areas.{with_norms, with_statistics, SameGroups};

use super::concentration;
use super::layout::Groups;
use limits::Shape;
use mixture_kappa::Kappa;

// The weight of leaf i times its responsibility in group c.
fn share(area: &Groups, i: usize, c: usize) -> f64
    requires { (i < area.now.shape.m) × (c < area.now.shape.k) }
    ensures { result ≡ mul binary64 (get_or area.now.leaves.weights.now i nan)
        (get_or (row_of area.now.responsibilities.now area.now.shape.k i) c nan) }
{
    area.leaves.weights[i] * area.shares(i)[c]
}

// Group c gains a leaf, of this weight.
fn accumulate_group(area: &mut Groups, c: usize, w: f64, x: &[f64])
    requires { (c < area.old.shape.k) × (length x.now ≡ area.old.shape.d) }
    ensures same { SameGroups area.old area.new }
    ensures parts { let z = area.old.shape in
        let p = parts_of area.old in
        parts_of area.new ≡ with_statistics (accumulate_group z.d w x.now c (statistics_of p)) p }
{
    area.totals[c] = area.totals[c] + w;
    let d = area.shape.d;
    let to = c * d;
    // Written, so cut here; rows says why.
    vector::add_scaled(&mut area.sums[to..to + d], w, x);
}

// Every group gains leaf i.
#[tactic(auto, using(crate::proofs::Statistics::leaf_turn), unfolding(crate::specs::Mixture::accumulate_leaf))]
fn accumulate_leaf(area: &mut Groups, i: usize)
    requires { i < area.old.shape.m }
    ensures same { SameGroups area.old area.new }
    ensures parts { let z = area.old.shape in
        let l = area.old.leaves in
        let p = parts_of area.old in
        let w = get_or l.weights.now i nan in
        let x = row_of l.coords.now z.d i in
        parts_of area.new ≡ with_statistics (accumulate_leaf z.d w (row_of p.resp z.k i)
        x (statistics_of p) z.k) p }
{
    let x = area.leaf(i);
    for c in 0..area.shape.k {
        let w = share(area, i, c);
        accumulate_group(area, c, w, x);
    }
}

// The sufficient statistics of the groups: their whole weights and resultants, from nothing.
#[tactic(auto, using(crate::proofs::Statistics::leaves_turn), unfolding(crate::specs::Mixture::statistics_up_to))]
fn accumulate(area: &mut Groups)
    ensures same { SameGroups area.old area.new }
    ensures parts { let z = area.old.shape in
        let l = area.old.leaves in
        let p = parts_of area.old in
        parts_of area.new ≡ with_statistics (statistics_up_to l.weights.now
        l.coords.now p.resp z.k z.d z.m) p }
{
    rows::fill(area.totals, 0.0);
    rows::fill(area.sums, 0.0);
    for i in 0..area.shape.m {
        accumulate_leaf(area, i);
    }
}

// The length of resultant c.
#[tactic(auto, using(rows::proofs::Rows::row_within))]
fn sum_norm(sums: &[f64], z: Shape, c: usize) -> f64
    requires { (c < z.k) × (length sums.now ≡ z.k * z.d) }
    ensures { result ≡ norm_of (row_of sums.now z.d c) }
{
    vector::norm(rows::row(sums, z.d, c))
}

// The length of each resultant. The resultants are only read: they are lent as `&mut`, so that it is known that they
// stay.
pub(crate) fn put_norms(area: &mut Groups)
    ensures same { SameGroups area.old area.new }
    ensures parts { let z = area.old.shape in
        let p = parts_of area.old in
        parts_of area.new ≡ with_norms (norms_up_to p.sums z.d z.k) p }
{
    let shape = area.shape;
    let sums = &mut *area.sums;
    rows::put(area.norms, |c| sum_norm(sums, shape, c));
}

// 1 / k.
pub(crate) fn even_weight(k: usize) -> f64
    requires { k ≤ 64 }
    ensures { result ≡ even_weight k }
{
    1.0 / k as f64
}

// A group's share of the whole weight.
fn weight_by(total: f64, whole: f64, k: usize) -> f64
    requires { k ≤ 64 }
    ensures { result ≡ weight_by k whole total }
{
    if whole > 0.0 {
        return total / whole;
    }
    even_weight(k)
}

// The whole weight of the groups.
fn whole_weight(area: &Groups) -> f64
    ensures { result ≡ sum_from minus_zero area.now.totals.now }
{
    vector::sum(area.totals)
}

// The weight of each group. The totals are only read, and lent as `&mut` for the same reason.
fn put_weights(area: &mut Groups, whole: f64)
    ensures same { SameGroups area.old area.new }
    ensures parts { let z = area.old.shape in
        let p = parts_of area.old in
        parts_of area.new ≡ with_weights (tabulate (weight_at z.k whole p.totals) z.k) p }
{
    let k = area.shape.k;
    let totals = &mut *area.totals;
    rows::put(area.weights, |c| weight_by(totals[c], whole, k));
}

// The direction of group c: its resultant over this length, where that is above 0.
#[tactic(auto, using(rows::proofs::Rows::put_same))]
fn redirect_group(area: &mut Groups, c: usize, n: f64)
    requires { c < area.old.shape.k }
    ensures same { SameGroups area.old area.new }
    ensures parts { let d = area.old.shape.d in
        let p = parts_of area.old in
        parts_of area.new ≡ with_directions (put_part p.directions (c * d) d
        (cond (lt plus_zero n) (divided_by n (row_of p.sums d c)) (row_of p.directions d c))) p }
{
    let d = area.shape.d;
    let at = c * d;
    if n > 0.0 {
        rows::copy_part(area.directions, area.sums, at, d);
        // Written, so cut here; rows says why.
        vector::divide_by(&mut area.directions[at..at + d], n);
    }
}

// The direction of each group: its resultant over its length, where that is above 0.
#[tactic(auto, unfolding(crate::specs::Mixture::directions_up_to))]
fn redirect(area: &mut Groups)
    requires { area.old.norms.now ≡ norms_up_to area.old.sums.now area.old.shape.d area.old.shape.k }
    ensures same { SameGroups area.old area.new }
    ensures parts { let z = area.old.shape in
        let p = parts_of area.old in
        parts_of area.new ≡ with_directions (directions_up_to z.d p.sums p.directions z.k) p }
{
    for c in 0..area.shape.k {
        let n = area.norms[c];
        redirect_group(area, c, n);
    }
}

// The M-step: weights, directions and concentrations from the responsibilities.
pub(crate) fn maximize_model(area: &mut Groups, kappa: Kappa)
    ensures same { SameGroups area.old area.new }
    ensures parts { let z = area.old.shape in
        let l = area.old.leaves in
        let p = parts_of area.old in
        let q = parts_of area.new in
        let g = statistics_up_to l.weights.now l.coords.now p.resp z.k
        z.d z.m in
        (q.resp ≡ p.resp) × (model_of q ≡ maximize kappa z.k z.d (model_of p) g) }
{
    accumulate(area);
    put_norms(area);
    let whole = whole_weight(area);
    put_weights(area, whole);
    redirect(area);
    concentration::concentrate(area, kappa, whole);
}
