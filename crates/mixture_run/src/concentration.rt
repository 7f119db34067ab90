// The concentrations of the groups, each by its own resultant or one by the pooled lengths: all that hangs on Kappa.
ghost use Rattle.std.specs.Prelude.{◌≡◌, replicate};
ghost use Rattle.float.specs.Arithmetic.{plus_zero, sum_from};
ghost use Rattle.rows.specs.Tabulate.{tabulate};
ghost use Rattle.bessel.specs.Concentration.{Dimension, estimate_of};
ghost use Rattle.mixture_kappa.specs.Kappas.{mean_length, shared_kappa, kappa_at, kappas_of};
ghost use Rattle.mixture_run.specs.Areas.{parts_of, with_kappas, SameGroups};

use super::layout::Groups;
use mixture_kappa::Kappa;

// The concentration by a resultant's length and weight.
fn kappa_by(resultant: f64, weight: f64, d: usize) -> f64
    requires { Dimension d }
    ensures { result ≡ estimate_of d (mean_length resultant weight) }
{
    if weight > 0.0 {
        return bessel::estimate_kappa(resultant / weight, d);
    }
    bessel::estimate_kappa(0.0, d)
}

// The concentration of each group by its own length and weight, which are only read: they are lent as `&mut`, so that
// it is known that they stay.
fn free_kappas(area: &mut Groups)
    ensures same { SameGroups area.old area.new }
    ensures parts { let z = area.old.shape in
        let p = parts_of area.old in
        parts_of area.new ≡ with_kappas (tabulate (kappa_at z.d p.norms p.totals) z.k) p }
{
    let d = area.shape.d;
    let norms = &mut *area.norms;
    let totals = &mut *area.totals;
    rows::put(area.kappas, |c| kappa_by(norms[c], totals[c], d));
}

// The concentration by the pooled length of the resultants.
fn pooled_kappa(area: &Groups, whole: f64) -> f64
    ensures { result ≡ shared_kappa area.now.shape.d (sum_from plus_zero area.now.norms.now) whole }
{
    kappa_by(vector::fold(area.norms), whole, area.shape.d)
}

// One concentration for all, by the pooled length.
fn shared_kappa(area: &mut Groups, whole: f64)
    ensures same { SameGroups area.old area.new }
    ensures parts { let z = area.old.shape in
        let p = parts_of area.old in
        parts_of area.new ≡ with_kappas (replicate z.k
        (shared_kappa z.d (sum_from plus_zero p.norms) whole)) p }
{
    let kappa = pooled_kappa(area, whole);
    rows::fill(area.kappas, kappa);
}

// The concentrations by the lengths and the weights of the resultants, at the start and after each round.
pub(crate) fn concentrate(area: &mut Groups, kappa: Kappa, whole: f64)
    ensures same { SameGroups area.old area.new }
    ensures parts { let z = area.old.shape in
        let p = parts_of area.old in
        parts_of area.new ≡ with_kappas (kappas_of kappa z.k z.d p.norms p.totals whole) p }
{
    match kappa {
        Kappa::Free => free_kappas(area),
        Kappa::Shared => shared_kappa(area, whole),
    }
}
