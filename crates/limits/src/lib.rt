// The limits that the entries share (document 01, 'Leaves, settings, fit' and 'Refusals by call').
#![tactic(auto)]

ghost use Rattle.std.specs.Prelude.{◌≡◌, ◌≤◌, Ok};
ghost use Rattle.limits.specs.Limits.{within, weight_ok, coordinate_ok, every, leaves_refusal};
ghost use Rattle.limits.specs.Limits.{sizes_ok, groups_ok, work_ok, most_rounds};
ghost use Rattle.limits.specs.Refusals.{number_of, need};
ghost use Rattle.limits.specs.Sizes.{Sizes};

// The greatest numbers of leaves, of coordinates of a leaf, of groups, of rounds and of restarts; the greatest weight,
// and how far a coordinate may be from 0.
pub const MOST_LEAVES: usize = 4096;

pub const MOST_COORDINATES: usize = 256;

pub const MOST_GROUPS: usize = 64;

pub const MOST_ROUNDS: usize = 10000;

pub const MOST_RESTARTS: usize = 64;

const MOST_WEIGHT: f64 = 1099511627776.0;

const FARTHEST: f64 = 2.0;

// The leaves: m weights, the coordinates row by row, and how many a leaf has.
#[derive(Clone, Copy)]
pub struct Leaves<'a> {
    pub weights: &'a [f64],
    pub coords: &'a [f64],
    pub d: usize,
}

// The sizes of a run, within the limits: m leaves of d coordinates, k groups.
#[derive(Clone, Copy)]
pub struct Shape {
    pub m: usize,
    pub k: usize,
    pub d: usize,
    ghost sizes: { Sizes m k d },
}

// How many rounds a run may begin, within the limit.
#[derive(Clone, Copy)]
pub struct Rounds {
    pub most: usize,
    ghost small: { most ≤ most_rounds },
}

// What an entry refuses, each with its number.
#[derive(Clone, Copy, Debug, PartialEq, Eq)]
pub enum Refusal {
    // 1: m or d is out of limits, or the coordinates aren't m * d.
    Sizes,
    // 2: k is 0, above 64 or above m; in the automatic fit, k_hi is above 64.
    Groups,
    // 3: the rounds or the restarts are above their limit.
    Rounds,
    // 4: an output or work array is too short.
    Arrays,
    // 5: a bad weight.
    Weight,
    // 6: a bad coordinate.
    Coordinate,
    // 8: a leaf file is below eight bytes, or its length is wrong.
    FileLength,
    // 9: a leaf file's m or d is too large.
    FileSizes,
    // 13: there is no such Kappa.
    Kappa,
}

impl From<Refusal> for u32 {
    ghost from_gives = { λ r n. n ≡ number_of r };

    fn from(r: Refusal) -> u32 {
        match r {
            Refusal::Sizes => 1,
            Refusal::Groups => 2,
            Refusal::Rounds => 3,
            Refusal::Arrays => 4,
            Refusal::Weight => 5,
            Refusal::Coordinate => 6,
            Refusal::FileLength => 8,
            Refusal::FileSizes => 9,
            Refusal::Kappa => 13,
        }
    }
}

// The refusal where the condition fails.
pub fn need(holds: bool, refusal: Refusal) -> Result<(), Refusal>
    ensures { result ≡ need holds refusal (Ok tt) }
{
    if holds { Ok(()) } else { Err(refusal) }
}

// x from low to high.
fn is_within(x: f64, low: f64, high: f64) -> bool
    ensures { result ≡ within low high x }
{
    low <= x && x <= high
}

// Every element is.
fn all_within(xs: &[f64], low: f64, high: f64) -> bool
    ensures { result ≡ every (within low high) xs.now }
{
    xs.iter().all(|x| is_within(*x, low, high))
}

// Every weight is from 0 to 2^40.
pub fn weights_ok(ws: &[f64]) -> bool
    ensures { result ≡ every weight_ok ws.now }
{
    all_within(ws, 0.0, MOST_WEIGHT)
}

// Every coordinate is within +-2.
pub fn coordinates_ok(xs: &[f64]) -> bool
    ensures { result ≡ every coordinate_ok xs.now }
{
    all_within(xs, -FARTHEST, FARTHEST)
}

// A bad weight is refused, then a bad coordinate.
pub fn check_leaves(leaves: Leaves) -> Result<(), Refusal>
    ensures { result ≡ leaves_refusal leaves.entry.weights.now leaves.entry.coords.now }
{
    need(weights_ok(leaves.weights), Refusal::Weight)?;
    need(coordinates_ok(leaves.coords), Refusal::Coordinate)
}

// m and d within their limits, and m * d coordinates.
pub fn sizes_ok(m: usize, d: usize, coords: usize) -> bool
    ensures { result ≡ sizes_ok m d coords }
{
    1 <= m && m <= MOST_LEAVES && 1 <= d && d <= MOST_COORDINATES && coords == m * d
}

// k within its limits.
pub fn groups_ok(k: usize, m: usize) -> bool
    ensures { result ≡ groups_ok k m }
{
    1 <= k && k <= MOST_GROUPS && k <= m
}

// The lent work arrays are long enough. It takes m, k and d, since what it asks of them is tested one by one, and there
// is no Shape before all of it is.
pub fn work_ok(m: usize, k: usize, d: usize, work: usize, work_u32: usize) -> bool
    requires { (m ≤ 4096) × (k ≤ 64) × (d ≤ 256) }
    ensures { result ≡ work_ok m k d work work_u32 }
{
    let mk = m * k;
    let kd = k * d;
    let needed = 2 * mk + 4 * kd + 8 * m + 16 * k;
    let noted = 2 * m + 2 * k;
    (needed <= work) & (noted <= work_u32)
}
