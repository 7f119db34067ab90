// The seeding of a run of spherical k-means (vmf.rs, spherical_pp; document 01, 'Spherical k-means'), in the parts of a
// work area that it writes: the centres, and a distance and a chance for each leaf. It is lent these parts alone, and
// singly: of those that an area lends out in a struct it would not be known what they hold afterwards.
#![tactic(auto)]

ghost use Rattle.std.specs.Prelude.{◌≡◌, cond, ◌+◌, ◌*◌, ◌<◌, ◌≤◌, length};
ghost use Rattle.std.specs.Float.Ieee.{lt};
ghost use Rattle.rows.specs.Rows.{put_part, row_of};
ghost use Rattle.vector.specs.Vectors.{unit_vector};
ghost use Rattle.kmeans_seeding.specs.Seeding.{cosine_distances_up_to, lowered, chances, seeds_of};
ghost use Rattle.kmeans_seeding.specs.Distances.{cosine_distances, lower_from, Lent, held_by, SeededNext};

use kmeans_layout::Problem;

// The cosine distances of leaves i to i + N - 1 from a centre.
fn cosine_distances<const N: usize>(problem: Problem, center: &[f64], i: usize) -> [f64; N]
    requires { i + N ≤ problem.shape.m }
    ensures { result ≡ cosine_distances problem.entry.leaves.coords.now problem.entry.shape.d center.now i N }
{
    let f = kmeans_nearest::row_dots::<N>(center, problem.leaves.coords, i, problem.shape.d);
    f.map(|v| float::max(1.0 - v, 0.0))
}

// The smaller of a distance and a new one; the held one where it is a NaN, which `f64::min` would not answer.
fn nearer(v: f64, held: f64) -> f64
    ensures { result ≡ cond (lt v held) v held }
{
    if v < held { v } else { held }
}

// The distances from place `at` on lowered where the new ones are smaller.
#[tactic(auto, using(crate::proofs::Seeds::lower_turn), unfolding(crate::specs::Distances::lower_at))]
fn lower_from<const N: usize>(distances: &mut [f64], at: usize, f: [f64; N])
    requires { at + N ≤ length distances.old }
    ensures { distances.new ≡ lower_from distances.old at f.entry }
{
    for (e, held) in distances[at..at + N].iter_mut().enumerate() {
        *held = nearer(f[e], *held);
    }
}

// The distance of each leaf lowered where a centre is nearer: by fours, then singly. The loops of this shape share only
// their borders: one function of them would take two closures that write an array.
fn lower_distances(problem: Problem, center: &[f64], distances: &mut [f64])
    requires { length distances.old ≡ problem.shape.m }
    ensures { distances.new ≡ lowered problem.entry.leaves.coords.now problem.entry.shape.d center.now 0 distances.old }
{
    let m = problem.shape.m;
    for b in 0..m / 4 {
        let f = cosine_distances::<4>(problem, center, 4 * b);
        lower_from(distances, 4 * b, f);
    }
    for i in m - m % 4..m {
        let f = cosine_distances::<1>(problem, center, i);
        lower_from(distances, i, f);
    }
}

// The distance of each leaf from the first centre, lowered from an infinite one.
fn first_distances(problem: Problem, center: &[f64], distances: &mut [f64])
    requires { length distances.old ≡ problem.shape.m }
    ensures { distances.new ≡ cosine_distances_up_to problem.entry.leaves.coords.now problem.entry.shape.d center.now
        problem.entry.shape.m }
{
    rows::fill(distances, 1.0 / 0.0);
    lower_distances(problem, center, distances);
}

// Weight times distance, leaf by leaf.
fn put_chances(to: &mut [f64], weights: &[f64], distances: &[f64])
    requires { (length weights.now ≡ length to.old) × (length distances.now ≡ length to.old) }
    ensures { to.new ≡ chances weights.now distances.now }
{
    rows::put(to, |i| weights[i] * distances[i]);
}

// Centre c becomes leaf i as a unit vector.
#[tactic(auto, using(rows::proofs::Rows::row_cut, rows::proofs::Rows::row_within))]
fn seed_center(problem: Problem, centers: &mut [f64], c: usize, i: usize)
    requires long { length centers.old ≡ problem.shape.k * problem.shape.d }
    requires below { (c < problem.shape.k) × (i < problem.shape.m) }
    ensures { centers.new ≡ put_part centers.old (c * problem.entry.shape.d) problem.entry.shape.d
        (unit_vector (row_of problem.entry.leaves.coords.now problem.entry.shape.d i)) }
{
    let d = problem.shape.d;
    let to = c * d;
    let leaf = rows::row(problem.leaves.coords, d, i);
    // Written, so cut here; rows says why.
    vector::unit(&mut centers[to..to + d], leaf);
}

// One centre more, by the weights times the distances; answers the generator after it.
#[tactic(auto, using(rows::proofs::Rows::row_within))]
fn seed_next(
    problem: Problem,
    centers: &mut [f64],
    distances: &mut [f64],
    chances: &mut [f64],
    generator: u64,
    c: usize,
) -> u64
    requires lent { Lent problem.shape centers.old distances.old chances.old }
    requires below { c < problem.shape.k }
    ensures { SeededNext problem.entry.leaves.weights.now problem.entry.leaves.coords.now problem.entry.shape.d c
        (held_by centers.old distances.old generator) (held_by centers.new distances.new result) }
{
    put_chances(chances, problem.leaves.weights, distances);
    let p = pick::weighted_pick(chances, generator);
    seed_center(problem, centers, c, p.index);
    lower_distances(problem, rows::row(centers, problem.shape.d, c), distances);
    p.generator
}

// The seeds of a run (spherical_pp); answers the generator after them.
#[tactic(auto, using(rows::proofs::Rows::row_within))]
pub fn seed(
    problem: Problem,
    centers: &mut [f64],
    distances: &mut [f64],
    chances: &mut [f64],
    generator: u64,
) -> u64
    requires { Lent problem.shape centers.old distances.old chances.old }
    ensures { let s = seeds_of problem.entry.leaves.weights.now problem.entry.leaves.coords.now problem.entry.shape.m
        problem.entry.shape.k problem.entry.shape.d generator in
        (centers.new ≡ s.centers) × (result ≡ s.generator) }
{
    let p = pick::weighted_pick(problem.leaves.weights, generator);
    seed_center(problem, centers, 0, p.index);
    first_distances(problem, rows::row(centers, problem.shape.d, 0), distances);
    let mut g = p.generator;
    for c in 1..problem.shape.k {
        g = seed_next(problem, centers, distances, chances, g, c);
    }
    g
}
