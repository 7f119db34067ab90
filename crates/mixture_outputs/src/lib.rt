// What the mixture fits share (vmf.rs, the fields of a fit; mixture.rs, ln_weight; document 01, 'Leaves, settings,
// fit', 'Mixture' and 'Refusals by call'): what they refuse, and the outputs filled from what the kept run found.
#![tactic(auto)]

ghost use Rattle.std.specs.Prelude.{◌≡◌, ◌++◌, true, ◌<◌, ◌≤◌, length, drop, Float};
ghost use Rattle.rows.specs.Rows.{row_of};
ghost use Rattle.pick.specs.Places.{argmax_of};
ghost use Rattle.limits.specs.Limits.{most_groups};
ghost use Rattle.mixture_run.specs.Fits.{labels_of, ln_weight, logw_of};
ghost use Rattle.mixture_run.specs.Areas.{found_model, found_em};
ghost use Rattle.mixture_outputs.specs.Outputs.{lengths_of, written};
ghost use Rattle.mixture_outputs.specs.Refusals.{outputs_ok, arrays_ok, fit_refusal};
ghost use Rattle.mixture_outputs.specs.Lent.{outputs_of, SameArrays, Fits};

use bessel::Order;
use limits::{Leaves, Refusal, need};
use mixture_kappa::Settings;
use mixture_run::layout::Found;

// ---- what is refused

// The lengths of the output and work arrays.
#[derive(Clone, Copy)]
pub struct Lengths {
    pub labels: usize,
    pub responsibilities: usize,
    pub weights: usize,
    pub directions: usize,
    pub concentrations: usize,
    pub logw: usize,
    pub work: usize,
    pub work_u32: usize,
}

// The outputs are long enough. It takes m, k and d, since what it asks of them is tested one by one, and there is no
// Shape before all of it is.
fn outputs_ok(m: usize, k: usize, d: usize, l: Lengths) -> bool
    requires { (m ≤ 4096) × (k ≤ 64) × (d ≤ 256) }
    ensures { result ≡ outputs_ok m k d l }
{
    let mk = m * k;
    let kd = k * d;
    m <= l.labels
        && mk <= l.responsibilities
        && k <= l.weights
        && kd <= l.directions
        && k <= l.concentrations
        && k <= l.logw
}

// The outputs and the work arrays are long enough. It takes m, k and d, since what it asks of them is tested one by
// one, and there is no Shape before all of it is.
fn arrays_ok(m: usize, k: usize, d: usize, l: Lengths) -> bool
    requires { (m ≤ 4096) × (k ≤ 64) × (d ≤ 256) }
    ensures { result ≡ arrays_ok m k d l }
{
    outputs_ok(m, k, d, l) && limits::work_ok(m, k, d, l.work, l.work_u32)
}

// The first refusal from 1 to 6 that holds, if any, of a fit of k groups, of the automatic fit up to k. Whether k is
// admitted is the fit's to say: `groups` is the outcome of its test.
#[tactic(auto, unfolding(crate::specs::Refusals::fit_refusal))]
pub fn check(leaves: Leaves, k: usize, groups: bool, s: Settings, l: Lengths) -> Result<(), Refusal>
    requires { groups ≡ true → k ≤ most_groups }
    ensures { result ≡ fit_refusal groups leaves.entry.weights.now leaves.entry.coords.now leaves.entry.d k s l }
{
    let m = leaves.weights.len();
    let d = leaves.d;
    need(limits::sizes_ok(m, d, leaves.coords.len()), Refusal::Sizes)?;
    need(groups, Refusal::Groups)?;
    need(s.rounds <= limits::MOST_ROUNDS, Refusal::Rounds)?;
    need(arrays_ok(m, k, d, l), Refusal::Arrays)?;
    limits::check_leaves(leaves)
}

// ---- the lent arrays

// The six output arrays, as they are lent.
#[derive(Drop)]
pub struct Arrays<'a> {
    pub labels: &'a mut [u32],
    pub responsibilities: &'a mut [f64],
    pub weights: &'a mut [f64],
    pub directions: &'a mut [f64],
    pub concentrations: &'a mut [f64],
    pub logw: &'a mut [f64],
}

impl Arrays<'_> {
    // Their lengths beside those of the work arrays.
    pub fn lengths(&self, work: usize, work_u32: usize) -> Lengths
        ensures { result ≡ lengths_of (outputs_of self.now) work work_u32 }
    {
        Lengths {
            labels: self.labels.len(),
            responsibilities: self.responsibilities.len(),
            weights: self.weights.len(),
            directions: self.directions.len(),
            concentrations: self.concentrations.len(),
            logw: self.logw.len(),
            work,
            work_u32,
        }
    }
}

// ---- filled

// The label of leaf i: the first group of its greatest responsibility.
fn label_of(found: Found, i: usize) -> u32
    requires { i < found.shape.m }
    ensures { result ≡ argmax_of (row_of found.entry.responsibilities.now found.entry.shape.k i) }
{
    pick::argmax(found.leaf_responsibilities(i)) as u32
}

// The label of each leaf.
fn put_labels(labels: &mut [u32], found: Found)
    requires { length labels.old ≡ found.shape.m }
    ensures { labels.new ≡ labels_of found.entry.responsibilities.now found.entry.shape.m found.entry.shape.k }
{
    rows::put(labels, |i| label_of(found, i));
}

// The logarithm of a weight, with mixture.rs's floor.
fn ln_weight(w: f64) -> f64
    ensures { result ≡ ln_weight w }
{
    logarithm::ln(float::max(w, 2.2250738585072014e-308))
}

// ln weight + log normalizer of each group. The table is read once for all.
fn put_logw(logw: &mut [f64], found: Found)
    requires { length logw.old ≡ found.shape.k }
    ensures { logw.new ≡ logw_of found.entry.shape.k found.entry.shape.d (found_model found.entry) }
{
    let order = Order::of(found.shape.d);
    rows::put(logw, |c| {
        ln_weight(found.weights[c]) + mixture_kappa::log_norm_from(found.concentrations[c], order)
    });
}

// The labels at the start of an array that may be longer.
fn fill_labels(labels: &mut [u32], found: Found)
    requires { found.shape.m ≤ length labels.old }
    ensures { labels.new ≡ labels_of found.entry.responsibilities.now found.entry.shape.m found.entry.shape.k
        ++ drop found.entry.shape.m labels.old }
{
    put_labels(&mut labels[..found.shape.m], found);
}

// The logw at the start of an array that may be longer.
fn fill_logw(logw: &mut [f64], found: Found)
    requires { found.shape.k ≤ length logw.old }
    ensures { logw.new ≡ logw_of found.entry.shape.k found.entry.shape.d (found_model found.entry)
        ++ drop found.entry.shape.k logw.old }
{
    put_logw(&mut logw[..found.shape.k], found);
}

// What a run found, written into the outputs.
#[tactic(auto, unfolding(crate::specs::Outputs::written))]
pub fn fill_outputs(o: &mut Arrays, found: Found)
    requires { Fits (outputs_of o.old) found.shape.m found.shape.k found.shape.d }
    ensures same { SameArrays o.old o.new }
    ensures filled { (loglik : Float) → outputs_of o.new ≡ written found.entry.shape.m found.entry.shape.k
        found.entry.shape.d (found_em found.entry loglik) (outputs_of o.old) }
{
    fill_labels(o.labels, found);
    rows::copy_front(o.responsibilities, found.responsibilities);
    rows::copy_front(o.weights, found.weights);
    rows::copy_front(o.directions, found.directions);
    rows::copy_front(o.concentrations, found.concentrations);
    fill_logw(o.logw, found);
}
