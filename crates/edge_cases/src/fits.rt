// Examples of the limits of the three fits, and what they answer.
ghost use Rattle.std.specs.Prelude.{◌≡◌, ◌≤◌};

use super::lists;
use auto::{Chosen, NotChosen};
use limits::Leaves;
use words::{plus, word};

// A call of a line: its leaves, whose d is word 4; its numbers, words 5 to 8; and from word `at` on the lengths of its
// arrays.
#[derive(Clone, Copy)]
pub(crate) struct Call<'a> {
    line: &'a [u64],
    leaves: Leaves<'a>,
    k_min: usize,
    k: usize,
    rounds: usize,
    restarts: usize,
    at: usize,
}

fn call_of<'a>(line: &'a [u64], leaves: Leaves<'a>, at: usize) -> Call<'a> {
    Call {
        line,
        leaves,
        k_min: word(line, 5) as usize,
        k: word(line, 6) as usize,
        rounds: word(line, 7) as usize,
        restarts: word(line, 8) as usize,
        at,
    }
}

// The length of array i of a call; no more than there is room for.
fn room(c: Call, i: usize, most: usize) -> usize
    ensures { result ≤ most }
{
    (word(c.line, plus(c.at, i)) as usize).min(most)
}

// The number of a refusal, or 0: a line has one number for both, so no Option.
fn number_of<T: Drop, E: Into<u32>>(r: Result<T, E>) -> u32 {
    match r {
        Ok(_) => 0,
        Err(e) => e.into(),
    }
}

// Whether all are 9, as before a call; of f64, 9.0 has one pattern.
pub(crate) fn untouched<T: Copy + PartialEq>(v: &[T], nine: T) -> bool {
    v.iter().all(|x| *x == nine)
}

// Whether the answer is word 1, the number of a refusal or 0, as the line has it, and the outputs are untouched where
// it is a refusal.
fn answer_is(c: u32, same: bool, line: &[u64]) -> bool {
    u64::from(c) == word(line, 1) && (c == 0 || same)
}

// Whether spherical k-means answers as word 1 says.
pub(crate) fn clustering_holds(c: Call) -> bool {
    let mut labels = [9u32; 4096];
    let mut directions = [9.0; 256];
    let mut work = [0.0; 40980];
    let mut work_u32 = [0u32; 8194];
    let i = room(c, 0, labels.len());
    let j = room(c, 1, directions.len());
    let n = room(c, 2, work.len());
    let p = room(c, 3, work_u32.len());
    let r = number_of(spherical::spherical_kmeans(
        c.leaves.weights,
        c.leaves.coords,
        c.leaves.d,
        c.k,
        c.rounds,
        c.restarts,
        7,
        &mut labels[..i],
        &mut directions[..j],
        &mut work[..n],
        &mut work_u32[..p],
    ));
    let same = untouched(&labels, 9) & untouched(&directions, 9.0);
    answer_is(r, same, c.line)
}

fn settings(rounds: usize) -> mixture_kappa::Settings {
    mixture_kappa::Settings {
        rounds,
        seed: 7,
        kappa: mixture_kappa::Kappa::Free,
    }
}

// The outputs of a mixture fit. Those of replay have other sizes and are compared with a case, which six const
// parameters would say no plainer.
#[derive(Drop)]
struct Outputs {
    labels: [u32; 8],
    responsibilities: [f64; 32],
    weights: [f64; 8],
    directions: [f64; 16],
    concentrations: [f64; 8],
    logw: [f64; 8],
}

impl Outputs {
    // As before a call: each number is 9.
    fn new() -> Outputs {
        Outputs {
            labels: [9; 8],
            responsibilities: [9.0; 32],
            weights: [9.0; 8],
            directions: [9.0; 16],
            concentrations: [9.0; 8],
            logw: [9.0; 8],
        }
    }

    // Whether they are still so.
    fn untouched(&self) -> bool {
        let a = untouched(&self.labels, 9)
            & untouched(&self.responsibilities, 9.0)
            & untouched(&self.directions, 9.0);
        let b = untouched(&self.weights, 9.0)
            & untouched(&self.concentrations, 9.0)
            & untouched(&self.logw, 9.0);
        a & b
    }
}

// Whether the mixture fit answers as word 1 says.
pub(crate) fn fit_answer_holds(c: Call) -> bool {
    let mut o = Outputs::new();
    let mut work = [0.0; 256];
    let mut work_u32 = [0u32; 32];
    let i1 = room(c, 0, o.labels.len());
    let i2 = room(c, 1, o.responsibilities.len());
    let i3 = room(c, 2, o.weights.len());
    let i4 = room(c, 3, o.directions.len());
    let i5 = room(c, 4, o.concentrations.len());
    let i6 = room(c, 5, o.logw.len());
    let i7 = room(c, 6, work.len());
    let i8 = room(c, 7, work_u32.len());
    let r = number_of(movmf::movmf_with(
        c.leaves.weights,
        c.leaves.coords,
        c.leaves.d,
        c.k,
        settings(c.rounds),
        &mut o.labels[..i1],
        &mut o.responsibilities[..i2],
        &mut o.weights[..i3],
        &mut o.directions[..i4],
        &mut o.concentrations[..i5],
        &mut o.logw[..i6],
        &mut work[..i7],
        &mut work_u32[..i8],
    ));
    answer_is(r, o.untouched(), c.line)
}

// Whether r is as words 1 to 3 say: refused with word 1; or with 7, and words 2 and 3 groups looked at and skipped; or
// word 1 is 0, and word 2 is the number kept and word 3 its score, each 0 where any is right. The outputs are untouched
// where it is refused.
pub(crate) fn chosen_is(r: Result<Chosen, NotChosen>, same: bool, line: &[u64]) -> bool {
    let c = word(line, 1);
    let a = word(line, 2);
    let b = word(line, 3);
    match r {
        Ok(f) => {
            c == 0 && (a == 0 || f.k as u64 == a) && (b == 0 || float::bits_of(f.score) == b)
        }
        Err(NotChosen::Refused(e)) => answer_is(u32::from(e), same, line),
        Err(NotChosen::Unscored(n)) => same && c == 7 && n.made == a && n.saved == b,
    }
}

// Whether the automatic fit with small arrays answers so.
pub(crate) fn choice_holds(c: Call) -> bool {
    let mut o = Outputs::new();
    let mut work = [0.0; 256];
    let mut work_u32 = [0u32; 32];
    let r = auto::movmf_auto_with(
        c.leaves.weights,
        c.leaves.coords,
        c.leaves.d,
        c.k_min,
        c.k,
        settings(c.rounds),
        &mut o.labels,
        &mut o.responsibilities,
        &mut o.weights,
        &mut o.directions,
        &mut o.concentrations,
        &mut o.logw,
        &mut work,
        &mut work_u32,
    );
    chosen_is(r, o.untouched(), c.line)
}

// Whether the test holds of a line's call: the answer in words 1 to 3, d, k_min, k or k_max, rounds, restarts, the
// weights, the coordinates, and the arrays' lengths.
pub(crate) fn holds<F: FnOnce(Call) -> bool>(line: &[u64], test: F) -> bool
    requires { F.IsAlwaysCallable test }
{
    let mut weights = [0.0; 4097];
    let mut coords = [0.0; 4097];
    let at = lists::after(line, 9);
    let m = lists::load(&mut weights, line, 9);
    let n = lists::load(&mut coords, line, at);
    let leaves = Leaves {
        weights: &weights[..m],
        coords: &coords[..n],
        d: word(line, 4) as usize,
    };
    test(call_of(line, leaves, lists::after(line, at)))
}
