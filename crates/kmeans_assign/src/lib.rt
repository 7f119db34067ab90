// The assignment pass of a round of spherical k-means with its bounds, their shift and the skip (vmf.rs; document 01,
// 'Spherical k-means'), in the parts of a work area that it reads and writes.
#![tactic(auto)]

ghost use Rattle.std.specs.Prelude.{◌≡◌, true, not, ◌<◌, ◌≤◌, eqb, get_or};
ghost use Rattle.counts.specs.Counts.{AtMost, of_round};
ghost use Rattle.kmeans_bounds.specs.Shifts.{other_than};
ghost use Rattle.kmeans_layout.specs.Sized.{Labelled};
ghost use Rattle.kmeans_assign.specs.Parts.{Sized, state_by};
ghost use Rattle.kmeans_assign.specs.Lent.{state_in, SameParts};
ghost use Rattle.kmeans_assign.specs.Pass.{bounds_at, put_bounds, put_label, shift_leaf, bounds_by, best_of, pass_of};
ghost use Rattle.kmeans_assign.specs.Turns.{Spent, LeafPlaced, LeafPassed, tallied, PassDone};
ghost use Rattle.kmeans_assign.specs.Turns.{turns_of, drifts_of, shift_one};

mod layout;

use counts::Counts;
use kmeans_bounds::{Bounds, Turned};
use kmeans_nearest::Centers;
use layout::Assignment;
use limits::Shape;
use pick::Best;

// ---- the bounds of a leaf

// The bounds of leaf i.
fn bounds_at(a: &Assignment, i: usize) -> Bounds
    requires { i < a.now.shape.m }
    ensures { result ≡ bounds_at (state_in a.now) i }
{
    Bounds {
        scale: a.scale[i],
        low: a.low[i],
        high: a.high[i],
    }
}

// New bounds of leaf i.
#[tactic(auto, unfolding(crate::specs::Pass::put_bounds))]
fn put_bounds(a: &mut Assignment, i: usize, b: Bounds)
    requires { i < a.old.shape.m }
    ensures same { SameParts a.old a.new }
    ensures state { state_in a.new ≡ put_bounds i b (state_in a.old) }
{
    a.low[i] = b.low;
    a.high[i] = b.high;
}

// The smallest drift of the centres other than the leaf's own.
fn other_drift(t: Best, label: usize) -> f64
    ensures { result ≡ other_than t label }
{
    if t.index == label { t.next } else { t.value }
}

// How far leaf i's centre turned, and the others at most, by the two smallest drifts.
fn turns(a: &Assignment, t: Best, i: usize) -> Turned
    requires { i < a.now.shape.m }
    ensures { result ≡ turns_of a.now.shape.k t i (state_in a.now) }
{
    let label = a.labels[i] as usize;
    Turned {
        own: a.drift[label],
        other: (a.shape.k > 1).then(|| other_drift(t, label)),
    }
}

// Whether the leaf is given new bounds from its dots however its own are shifted.
fn is_spent(b: Bounds, turns: Turned) -> bool
    ensures { result ≡ true → Spent turns b }
{
    b.scale > 0.0 && !b.may_skip(turns)
}

// ---- the pass

// The bounds of a leaf from its best and its second best dot.
fn bounds_by(b: Best, o: Bounds, k: usize) -> Bounds
    ensures { result ≡ bounds_by k b o }
{
    if o.scale > 0.0 {
        return Bounds {
            low: b.value / o.scale,
            high: if k > 1 { b.next / o.scale } else { -1.0 / 0.0 },
            ..o
        };
    }
    o
}

// Leaf i is served so well, by centre c; whether its label changes.
#[tactic(auto, using(crate::proofs::Labels::set_below), unfolding(crate::specs::Pass::put_label))]
fn put_label(a: &mut Assignment, i: usize, v: f64, c: usize) -> bool
    requires { (i < a.old.shape.m) × (c < a.old.shape.k) }
    ensures same { SameParts a.old a.new }
    ensures state { state_in a.new ≡ put_label i v c (state_in a.old) }
    ensures change { result ≡ not (eqb (get_or a.old.labels.now i 0) c) }
{
    let label = c as u32;
    let changed = a.labels[i] != label;
    a.served[i] = v;
    a.labels[i] = label;
    changed
}

// The best centre of leaf i, which is one of the k.
#[tactic(auto, using(kmeans_nearest::proofs::Nearest::best_below, rows::proofs::Rows::row_within))]
fn best_of(a: &Assignment, i: usize) -> Best
    requires { i < a.now.shape.m }
    ensures best { result ≡ best_of a.now.coords.now a.now.shape.k a.now.shape.d (state_in a.now) i }
    ensures below { result.index < a.now.shape.k }
{
    let centers = Centers {
        rows: a.centers,
        k: a.shape.k,
        d: a.shape.d,
    };
    centers.best_of(rows::row(a.coords, a.shape.d, i))
}

// Leaf i is given its best centre; whether its label changes.
fn place_leaf(a: &mut Assignment, i: usize) -> bool
    requires { i < a.old.shape.m }
    ensures same { SameParts a.old a.new }
    ensures placed { LeafPlaced a.old.coords.now a.old.shape.k a.old.shape.d i (state_in a.old)
        (state_in a.new) result }
{
    let b = best_of(a, i);
    let n = bounds_by(b, bounds_at(a, i), a.shape.k);
    let changed = put_label(a, i, b.value, b.index);
    put_bounds(a, i, n);
    changed
}

// Leaf i in a pass of round `it`: skipped (`None`), or given its best centre (whether its label changes).
fn assign_leaf(a: &mut Assignment, it: usize, i: usize) -> Option<bool>
    requires { i < a.old.shape.m }
    ensures same { SameParts a.old a.new }
    ensures passed { LeafPassed a.old.coords.now a.old.shape.k a.old.shape.d it i (state_in a.old)
        (state_in a.new) result }
{
    let b = bounds_at(a, i);
    if b.is_skipped(it) {
        return None;
    }
    Some(place_leaf(a, i))
}

// Leaf i in a pass after the first round: its bounds are shifted by how far the centres turned, unless it gets new ones
// anyway.
fn turn_leaf(a: &mut Assignment, t: Best, it: usize, i: usize) -> Option<bool>
    requires { i < a.old.shape.m }
    ensures same { SameParts a.old a.new }
    ensures passed { LeafPassed a.old.coords.now a.old.shape.k a.old.shape.d it i
        (shift_leaf a.old.shape.k t i (state_in a.old)) (state_in a.new) result }
{
    let turns = turns(a, t, i);
    let b = bounds_at(a, i);
    if is_spent(b, turns) {
        return Some(place_leaf(a, i));
    }
    put_bounds(a, i, b.shifted(turns));
    assign_leaf(a, it, i)
}

// What a pass answers: whether a label changed, and the products made and saved. The counts are there whether a label
// changed or not, so `changed` is no case.
#[derive(Clone, Copy)]
pub struct Passed {
    pub changed: bool,
    pub counts: Counts,
}

// With one leaf more.
fn tally(p: Passed, turn: Option<bool>, k: usize) -> Passed
    requires { (AtMost of_round p.counts) × (k ≤ 64) }
    ensures { result ≡ tallied p turn k }
{
    let c = p.counts;
    let n = k as u64;
    match turn {
        None => Passed {
            counts: Counts {
                saved: c.saved + n,
                ..c
            },
            ..p
        },
        Some(changed) => Passed {
            changed: p.changed | changed,
            counts: Counts {
                made: c.made + n,
                ..c
            },
        },
    }
}

// The two smallest drifts; none in the first round, before which no centre turned.
fn drifts(a: &Assignment, it: usize) -> Option<Best>
    ensures { result ≡ drifts_of it a.now.drift.now }
{
    (it > 0).then(|| kmeans_bounds::two_smallest(a.drift))
}

// Leaf i in the pass of round `it`; where there are drifts, with the shift of its bounds.
fn leaf_turn(a: &mut Assignment, drifts: Option<Best>, it: usize, i: usize) -> Option<bool>
    requires { i < a.old.shape.m }
    ensures same { SameParts a.old a.new }
    ensures passed { LeafPassed a.old.coords.now a.old.shape.k a.old.shape.d it i
        (shift_one a.old.shape.k drifts i (state_in a.old)) (state_in a.new) result }
{
    match drifts {
        Some(t) => turn_leaf(a, t, it, i),
        None => assign_leaf(a, it, i),
    }
}

// The pass of round `it`, after the first with the shift of the bounds, leaf by leaf.
#[tactic(auto, using(crate::proofs::Fused::none_shifted), unfolding(crate::specs::Pass::pass_up_to))]
fn pass_over(a: &mut Assignment, it: usize) -> Passed
    ensures same { SameParts a.old a.new }
    ensures done { PassDone (pass_of a.old.coords.now a.old.shape.m a.old.shape.k a.old.shape.d it
        (state_in a.old)) (state_in a.new) result }
{
    let drifts = drifts(a, it);
    let mut p = Passed {
        changed: false,
        counts: Counts::default(),
    };
    for i in 0..a.shape.m {
        let turn = leaf_turn(a, drifts, it, i);
        p = tally(p, turn, a.shape.k);
    }
    p
}

// The pass of round `it`, over these leaves and parts of a work area. The parts come singly: of those that an area
// lends out in a struct it would not be known what they hold afterwards.
pub fn pass(
    shape: Shape,
    coords: &[f64],
    centers: &mut [f64],
    scale: &mut [f64],
    low: &mut [f64],
    high: &mut [f64],
    served: &mut [f64],
    drift: &mut [f64],
    labels: &mut [u32],
    it: usize,
) -> Passed
    requires sized { Sized shape coords.now centers.old scale.old low.old high.old served.old drift.old labels.old }
    requires labelled { Labelled shape.m shape.k labels.old }
    ensures labelled { Labelled shape.m shape.k labels.new }
    ensures done { PassDone (pass_of coords.now shape.m shape.k shape.d it
        (state_by centers.old scale.old low.old high.old served.old drift.old labels.old))
        (state_by centers.new scale.new low.new high.new served.new drift.new labels.new) result }
{
    let mut a = Assignment {
        shape,
        coords,
        centers,
        scale,
        low,
        high,
        served,
        drift,
        labels,
    };
    pass_over(&mut a, it)
}
