// The sums and counts of the groups by the labels, and the cohesion (vmf.rs; document 01, 'Spherical k-means'), in the
// work area of a run.
#![tactic(auto)]

ghost use Rattle.std.specs.Prelude.{◌≡◌, ◌*◌, ◌<◌, ◌≤◌, length, get_or, replicate};
ghost use Rattle.float.specs.Arithmetic.{plus_zero, sum_from};
ghost use Rattle.rows.specs.Rows.{row_of};
ghost use Rattle.vector.specs.Vectors.{norm_of};
ghost use Rattle.kmeans_layout.specs.Areas.{state_of, Same, BesideSums};
ghost use Rattle.kmeans_sums.specs.Sums.{norms_up_to, add_leaf, sums_up_to};
ghost use Rattle.kmeans_sums.specs.Cohesion.{cohesion_of};
ghost use Rattle.kmeans_sums.specs.Gains.{Gained, Accumulated};

use kmeans_layout::Area;

// The sum of group c gains w times a leaf.
pub fn add_leaf(area: &mut Area, c: usize, w: f64, x: &[f64])
    requires { (c < area.old.shape.k) × (length x.now ≡ area.old.shape.d) }
    ensures beside { BesideSums area.old area.new }
    ensures sums { area.new.sums.now ≡ add_leaf area.old.sums.now area.old.shape.d c w x.now }
{
    let d = area.shape.d;
    let to = c * d;
    // Written, so cut here; rows says why.
    vector::add_scaled(&mut area.sums[to..to + d], w, x);
}

// Every sum becomes nothing.
pub fn clear_sums(area: &mut Area)
    ensures beside { BesideSums area.old area.new }
    ensures sums { area.new.sums.now ≡ replicate (area.old.shape.k * area.old.shape.d) plus_zero }
{
    rows::fill(area.sums, 0.0);
}

// The norm of the sum of group c.
pub fn sum_norm(area: &Area, c: usize) -> f64
    requires { c < area.now.shape.k }
    ensures { result ≡ norm_of (row_of area.now.sums.now area.now.shape.d c) }
{
    vector::norm(area.sum(c))
}

// Leaf i adds its weighted row to the sum of its group, which counts it.
fn gain(area: &mut Area, i: usize)
    requires { (i < area.old.shape.m) × (get_or area.old.counts.now (get_or area.old.labels.now i 0) 0 ≤ 4096) }
    ensures { Gained i area.old area.new }
{
    let c = area.labels[i] as usize;
    let w = area.leaves.weights[i];
    let x = area.leaf(i);
    add_leaf(area, c, w, x);
    area.counts[c] = area.counts[c] + 1;
}

// The sums and counts of the groups, by the labels.
pub fn accumulate(area: &mut Area)
    ensures { Accumulated area.old area.new }
{
    rows::fill(area.counts, 0);
    clear_sums(area);
    for i in 0..area.shape.m {
        gain(area, i);
    }
}

// The norms of the groups' sums, added from +0.
fn add_norms(area: &Area) -> f64
    ensures { result ≡ sum_from plus_zero (norms_up_to area.now.sums.now area.now.shape.d area.now.shape.k) }
{
    let mut total = 0.0;
    for c in 0..area.shape.k {
        total = total + sum_norm(area, c);
    }
    total
}

// The cohesion of the labels. The sums are made anew.
#[tactic(auto, unfolding(crate::specs::Cohesion::cohesion_of))]
pub fn cohesion_of(area: &mut Area) -> f64
    ensures same { (Same area.old area.new) × (state_of area.new ≡ state_of area.old) }
    ensures cohesion { result ≡ cohesion_of area.old.leaves.weights.now area.old.leaves.coords.now area.old.labels.now
        area.old.shape.m area.old.shape.k area.old.shape.d }
    ensures sums { area.new.sums.now ≡ sums_up_to area.old.leaves.weights.now area.old.leaves.coords.now
        area.old.labels.now area.old.shape.k area.old.shape.d area.old.shape.m }
{
    accumulate(area);
    add_norms(area)
}
