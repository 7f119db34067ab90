// The E-step: the log coefficient of each group, the log densities of each leaf, the responsibilities, and the
// log-likelihood.
ghost use Rattle.std.specs.Prelude.{◌≡◌, ◌+◌, ◌*◌, ◌<◌, ◌≤◌};
ghost use Rattle.rows.specs.Rows.{put_part, row_of};
ghost use Rattle.mixture_kappa.specs.Groups.{log_norm_of};
ghost use Rattle.mixture_run.specs.Mixture.{log_coefficients, log_densities, expect_up_to};
ghost use Rattle.mixture_run.specs.Areas.{parts_of, model_of, with_log_coefficients, with_resp};
ghost use Rattle.mixture_run.specs.Areas.{log_densities_from, SameGroups};

use super::layout::Groups;
use bessel::Order;

// The log normalizer of a concentration after the last one, whose own is `norm`; equal ones share it.
fn norm_for(kappa: f64, last: f64, norm: f64, order: Order) -> f64
    requires { norm ≡ log_norm_of order.d last }
    ensures { result ≡ log_norm_of order.d kappa }
{
    if float::bits_of(kappa) == float::bits_of(last) {
        return norm;
    }
    mixture_kappa::log_norm_from(kappa, order)
}

// The log coefficient of each group. The table is read once for all. It goes by index, since it carries the last
// concentration and its normalizer from group to group, and reads two parts of the area beside the one it writes.
#[tactic(auto, unfolding(rows::specs::Tabulate::tabulate))]
pub(crate) fn put_log_coefficients(area: &mut Groups)
    ensures same { SameGroups area.old area.new }
    ensures parts { let z = area.old.shape in
        let p = parts_of area.old in
        parts_of area.new ≡ with_log_coefficients (log_coefficients z.k z.d (model_of p)) p }
{
    let order = Order::of(area.shape.d);
    let mut last = area.kappas[0];
    let mut norm = mixture_kappa::log_norm_from(last, order);
    for c in 0..area.shape.k {
        let kappa = area.kappas[c];
        norm = norm_for(kappa, last, norm, order);
        last = kappa;
        area.log_coefficients[c] = mixture_kappa::log_coefficient(area.weights[c], norm);
    }
}

// The log densities of leaf i in groups c to c + N - 1.
#[tactic(auto, using(crate::proofs::Expected::densities_end), unfolding(rows::specs::Tabulate::tabulate))]
fn log_densities<const N: usize>(area: &Groups, i: usize, c: usize) -> [f64; N]
    requires { (i < area.now.shape.m) × (c + N ≤ area.now.shape.k) }
    ensures { let z = area.now.shape in
        let p = parts_of area.now in
        let x = row_of area.now.leaves.coords.now z.d i in
        result ≡ log_densities_from z.d p.log_coefficients (model_of p) x c N }
{
    let d = area.shape.d;
    let mut f = kmeans_nearest::row_dots::<N>(area.leaf(i), area.directions, c, d);
    for (e, v) in f.iter_mut().enumerate() {
        *v = area.log_coefficients[c + e] + area.kappas[c + e] * *v;
    }
    f
}

// The log densities of leaf i stand where its responsibilities will: by fours, then singly. The loops of this shape
// share only their borders; one function of them would take two closures that write an area.
fn put_log_densities(area: &mut Groups, i: usize)
    requires { i < area.old.shape.m }
    ensures same { SameGroups area.old area.new }
    ensures parts { let z = area.old.shape in
        let l = area.old.leaves in
        let p = parts_of area.old in
        let x = row_of l.coords.now z.d i in
        parts_of area.new
        ≡ with_resp (put_part p.resp (i * z.k) z.k (log_densities z.k z.d p.log_coefficients (model_of p) x)) p }
{
    let k = area.shape.k;
    let row = i * k;
    for b in 0..k / 4 {
        let f = log_densities::<4>(area, i, 4 * b);
        let to = row + 4 * b;
        area.responsibilities[to..to + 4].copy_from_slice(&f);
    }
    for c in k - k % 4..k {
        area.responsibilities[row + c] = log_densities::<1>(area, i, c)[0];
    }
}

// All responsibilities, from the log densities that are written in their places first, and the log-likelihood.
pub(crate) fn expect(area: &mut Groups) -> f64
    ensures same { SameGroups area.old area.new }
    ensures parts { let z = area.old.shape in
        let l = area.old.leaves in
        let p = parts_of area.old in
        let e = expect_up_to l.weights.now l.coords.now z.k z.d p.log_coefficients (model_of p) z.m in
        (result ≡ e.loglik) × (parts_of area.new ≡ with_resp e.resp p) }
{
    for i in 0..area.shape.m {
        put_log_densities(area, i);
    }
    mixture_softmax::log_softmax_rows(area.responsibilities, area.leaves.weights, area.shape.k)
}
