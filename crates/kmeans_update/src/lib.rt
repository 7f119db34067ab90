// The update of a round of spherical k-means: new centres, their drift, and reseeds of empty groups (vmf.rs; document
// 01, 'Spherical k-means'), in the work area of a run.
#![tactic(auto)]

ghost use Rattle.std.specs.Prelude.{◌≡◌, ◌<◌, ◌≤◌, ◌+◌, length, get_or};
ghost use Rattle.rows.specs.Rows.{row_of, part, put_part};
ghost use Rattle.vector.specs.Vectors.{dot_of};
ghost use Rattle.pick.specs.Places.{argmin_of};
ghost use Rattle.kmeans_bounds.specs.Shifts.{cosine};
ghost use Rattle.kmeans_layout.specs.Areas.{state_of, Same};
ghost use Rattle.kmeans_update.specs.Update.{empty_up_to, move_center, reseeded, recentered};
ghost use Rattle.kmeans_update.specs.Update.{fresh_update, update_group, update_up_to, update_of};
ghost use Rattle.kmeans_update.specs.Groups.{serve_leaf, serve_leaves, keep_center, Around, Beside};

use kmeans_layout::Area;

// ---- how well the leaves are served

// Whether a group has no leaf.
#[tactic(auto, using(crate::proofs::Served::empty_any))]
fn has_empty(area: &Area) -> bool
    ensures { result ≡ empty_up_to area.now.counts.now area.now.shape.k }
{
    area.counts.contains(&0)
}

// Leaf i is served as well as the centre of its label serves it.
#[tactic(auto, unfolding(crate::specs::Update::put_served))]
fn refresh_leaf(area: &mut Area, i: usize)
    requires { i < area.old.shape.m }
    ensures around { Around area.old area.new }
    ensures state { state_of area.new ≡ serve_leaf area.old.leaves.coords.now area.old.shape.d i (state_of area.old) }
{
    let c = area.labels[i] as usize;
    area.served[i] = vector::dot(area.leaf(i), area.center(c));
}

// Every leaf is served as well as the centre of its label serves it.
#[tactic(auto, using(crate::proofs::Served::refresh_start, crate::proofs::Served::serve_end))]
fn refresh(area: &mut Area)
    ensures around { Around area.old area.new }
    ensures state { state_of area.new
        ≡ serve_leaves area.old.leaves.coords.now area.old.shape.d area.old.shape.m (state_of area.old) }
{
    for i in 0..area.shape.m {
        refresh_leaf(area, i);
    }
}

// ---- new centres

// How far a row turns into another one: their dot, held to [-1, 1].
fn turned(row: &[f64], to: &[f64]) -> f64
    requires { length to.now ≡ length row.now }
    ensures { result ≡ cosine (dot_of row.now to.now) }
{
    float::clamp(vector::dot(row, to), -1.0, 1.0)
}

// Centre c becomes the row that stands in its place among the sums; its drift is taken against the old row first.
#[tactic(auto, unfolding(crate::specs::Update::move_center))]
fn move_center(area: &mut Area, c: usize)
    requires { c < area.old.shape.k }
    ensures around { Around area.old area.new }
    ensures state { state_of area.new ≡ move_center area.old.shape.d c (row_of area.old.sums.now area.old.shape.d c)
        (state_of area.old) }
{
    let d = area.shape.d;
    let at = c * d;
    area.drift[c] = turned(area.center(c), area.sum(c));
    rows::copy_part(area.centers, area.sums, at, d);
}

// Centre c stays; its drift is that of a centre which did not turn.
#[tactic(auto, using(rows::proofs::Rows::put_same), unfolding(crate::specs::Update::move_center))]
fn keep_center(area: &mut Area, c: usize)
    requires { c < area.old.shape.k }
    ensures around { Around area.old area.new }
    ensures state { state_of area.new ≡ keep_center area.old.shape.d c (state_of area.old) }
{
    area.drift[c] = turned(area.center(c), area.center(c));
}

// Centre c becomes its sum over the sum's norm, where that is above 0.
#[tactic(auto, using(crate::proofs::Updates::row_after))]
fn recenter(area: &mut Area, c: usize)
    requires { c < area.old.shape.k }
    ensures beside { Beside c area.old area.new }
    ensures state { state_of area.new ≡ recentered area.old.shape.d area.old.sums.now c (state_of area.old) }
{
    let n = kmeans_sums::sum_norm(area, c);
    if 0.0 < n {
        let d = area.shape.d;
        let at = c * d;
        // Written, so cut here; rows says why.
        vector::divide_by(&mut area.sums[at..at + d], n);
        move_center(area, c);
    } else {
        keep_center(area, c);
    }
}

// The worst-served leaf.
#[tactic(auto, using(pick::proofs::Places::argmin_below))]
fn worst(area: &Area) -> usize
    ensures { (result ≡ argmin_of area.now.served.now) × (result < area.now.shape.m) }
{
    pick::argmin(area.served)
}

// The empty group c is reseeded from the worst-served leaf, which no other group of this update picks.
#[tactic(auto, using(crate::proofs::Updates::row_after), unfolding(crate::specs::Update::put_served))]
fn reseed(area: &mut Area, c: usize)
    requires { c < area.old.shape.k }
    ensures beside { Beside c area.old area.new }
    ensures state { state_of area.new ≡ reseeded area.old.leaves.coords.now area.old.shape.d c
        (argmin_of area.old.served.now) (state_of area.old) }
{
    let d = area.shape.d;
    let worst = worst(area);
    let to = c * d;
    let leaf = area.leaf(worst);
    // Written, so cut here; rows says why.
    vector::unit(&mut area.sums[to..to + d], leaf);
    area.served[worst] = 1.0 / 0.0;
    move_center(area, c);
}

// Group c: reseeded where it is empty, else its centre anew.
fn update_group(area: &mut Area, c: usize)
    requires { c < area.old.shape.k }
    ensures beside { Beside c area.old area.new }
    ensures state { state_of area.new ≡ (update_group area.old.leaves.coords.now area.old.shape.d area.old.sums.now
        area.old.counts.now c (fresh_update (state_of area.old))).state }
{
    if area.counts[c] == 0 {
        reseed(area, c);
    } else {
        recenter(area, c);
    }
}

// Every group's centre anew.
#[tactic(auto, using(crate::proofs::Updates::groups_start))]
fn update_groups(area: &mut Area)
    ensures same { Same area.old area.new }
    ensures state { state_of area.new ≡ (update_up_to area.old.leaves.coords.now area.old.shape.d area.old.sums.now
        area.old.counts.now (state_of area.old) area.old.shape.k).state }
{
    for c in 0..area.shape.k {
        update_group(area, c);
    }
}

// The update: sums and counts, served refreshed where a group is empty, and new centres.
pub fn update(area: &mut Area)
    ensures same { Same area.old area.new }
    ensures state { state_of area.new ≡ (update_of area.old.leaves.weights.now area.old.leaves.coords.now
        area.old.shape.m area.old.shape.k area.old.shape.d (state_of area.old)).state }
{
    kmeans_sums::accumulate(area);
    if has_empty(area) {
        refresh(area);
    }
    update_groups(area);
}
