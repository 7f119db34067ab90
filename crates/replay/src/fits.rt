// Cases of the three fits.
ghost use Rattle.std.specs.Prelude.{◌≡◌};

use super::case::Case;
use super::outputs::{Form, Place};
use super::{answers, outputs};
use limits::Leaves;
use words::plus;

// The product of two counts.
fn times(a: usize, b: usize) -> usize {
    a % 65536 * (b % 65536)
}

// Whether the test holds of the leaves: word 0 is m and word 1 is d, and m weights and m * d coordinates stand from
// word `from` on.
fn holds<F: FnOnce(Leaves) -> bool>(case: Case, from: usize, test: F) -> bool
    requires { F.IsAlwaysCallable test }
{
    let m = case.word(0) as usize;
    let d = case.word(1) as usize;
    let n = times(m, d);
    let mut weights = [0.0; 128];
    let mut coords = [0.0; 1024];
    let a = words::load(&mut weights, case.words, from, m, m);
    let b = words::load(&mut coords, case.words, plus(from, m), n, n);
    test(Leaves {
        weights: &weights[..a],
        coords: &coords[..b],
        d,
    })
}

// Spherical k-means: m, d, k, rounds, restarts, seed, m weights, m * d coordinates; cohesion, made, saved, the labels,
// the directions. The outputs are longer than needed, and their rest is looked at too.
fn groups_agree(case: Case, leaves: Leaves) -> Option<Place> {
    let k = case.word(2) as usize;
    let mut labels = [7u32; 132];
    let mut directions = [7.5; 640];
    let mut work = [0.0; 12288];
    let mut work_u32 = [0u32; 384];
    let r = spherical::spherical_kmeans(
        leaves.weights,
        leaves.coords,
        leaves.d,
        k,
        case.word(3) as usize,
        case.word(4) as usize,
        case.word(5),
        &mut labels,
        &mut directions,
        &mut work,
        &mut work_u32,
    );
    let p = answers::clustering_agrees(r, case)?;
    let q = outputs::labels_agree(&labels, leaves.weights.len(), case, p)?;
    outputs::rows_agree(&directions, times(k, leaves.d), case, q)
}

pub(crate) fn spherical_agrees(case: Case) -> bool {
    holds(case, 6, |leaves| { groups_agree(case, leaves).is_some() })
}

// A function and no From: that any number but 0 is Shared is this list's way alone.
fn kappa_of(x: u64) -> mixture_kappa::Kappa {
    if x == 0 {
        mixture_kappa::Kappa::Free
    } else {
        mixture_kappa::Kappa::Shared
    }
}

fn settings(rounds: u64, seed: u64, kappa: u64) -> mixture_kappa::Settings {
    mixture_kappa::Settings {
        rounds: rounds as usize,
        seed,
        kappa: kappa_of(kappa),
    }
}

// The numbers of leaves, groups and coordinates of a fit's outputs. No Shape of limits: where no number of groups is
// kept, m and k are 0.
#[derive(Clone, Copy)]
struct Shape {
    m: usize,
    k: usize,
    d: usize,
}

// The six outputs of a mixture fit, longer than needed: their rest is looked at too. Those of edge_cases have other
// sizes and are asked whether they are untouched, which six const parameters would say no plainer.
#[derive(Drop)]
struct Outputs {
    labels: [u32; 132],
    responsibilities: [f64; 6500],
    weights: [f64; 68],
    directions: [f64; 1100],
    concentrations: [f64; 65],
    logw: [f64; 66],
}

impl Outputs {
    // As before a fit.
    fn new() -> Outputs {
        Outputs {
            labels: [7; 132],
            responsibilities: [7.5; 6500],
            weights: [7.5; 68],
            directions: [7.5; 1100],
            concentrations: [7.5; 65],
            logw: [7.5; 66],
        }
    }

    // Whether those of that shape are as p says, and the rest as before: the place after them.
    fn agree(&self, s: Shape, case: Case, p: Place) -> Option<Place> {
        let p = outputs::labels_agree(&self.labels, s.m, case, p)?;
        let p = outputs::rows_agree(&self.responsibilities, times(s.m, s.k), case, p)?;
        let p = outputs::rows_agree(&self.weights, s.k, case, p)?;
        let p = outputs::rows_agree(&self.directions, times(s.k, s.d), case, p)?;
        let p = outputs::rows_agree(&self.concentrations, s.k, case, p)?;
        outputs::rows_agree(&self.logw, s.k, case, p)
    }
}

// The mixture fit: m, d, k, rounds, seed, Kappa, m weights, m * d coordinates; the log-likelihood, made, saved, and the
// six outputs in that form.
fn fit_agrees(case: Case, leaves: Leaves, form: Form) -> Option<Place> {
    let s = Shape {
        m: leaves.weights.len(),
        k: case.word(2) as usize,
        d: leaves.d,
    };
    let mut o = Outputs::new();
    let mut work = [0.0; 18432];
    let mut work_u32 = [0u32; 384];
    let r = movmf::movmf_with(
        leaves.weights,
        leaves.coords,
        s.d,
        s.k,
        settings(case.word(3), case.word(4), case.word(5)),
        &mut o.labels,
        &mut o.responsibilities,
        &mut o.weights,
        &mut o.directions,
        &mut o.concentrations,
        &mut o.logw,
        &mut work,
        &mut work_u32,
    );
    let p = answers::fit_agrees(r, case.word(2), case, form)?;
    o.agree(s, case, p)
}

pub(crate) fn mixture_agrees(case: Case, form: Form) -> bool {
    holds(case, 6, |leaves| {
        fit_agrees(case, leaves, form).is_some()
    })
}

// The responsibilities that an automatic fit is lent: one that needs more is refused.
const AUTO_RESPONSIBILITIES: usize = 1024;

// The number of leaves, or 0 where no number of groups is kept.
fn labelled(k: usize, m: usize) -> usize {
    if k == 0 { 0 } else { m }
}

// The automatic fit: m, d, k_min, k_max, rounds, seed, Kappa, m weights, m * d coordinates;
// the number, the log-likelihood, the score, made, saved, and a digest of each output.
fn choice_agrees(case: Case, leaves: Leaves) -> Option<Place> {
    let k = case.word(case.ins) as usize;
    let s = Shape {
        m: labelled(k, leaves.weights.len()),
        k,
        d: leaves.d,
    };
    let mut o = Outputs::new();
    // The lesser of both: of a constant alone it is not seen that the part lies in the array.
    let lent = AUTO_RESPONSIBILITIES.min(o.responsibilities.len());
    let mut work = [0.0; 8192];
    let mut work_u32 = [0u32; 384];
    let r = auto::movmf_auto_with(
        leaves.weights,
        leaves.coords,
        s.d,
        case.word(2) as usize,
        case.word(3) as usize,
        settings(case.word(4), case.word(5), case.word(6)),
        &mut o.labels,
        &mut o.responsibilities[..lent],
        &mut o.weights,
        &mut o.directions,
        &mut o.concentrations,
        &mut o.logw,
        &mut work,
        &mut work_u32,
    );
    let p = answers::choice_agrees(r, case)?;
    o.agree(s, case, p)
}

pub(crate) fn auto_agrees(case: Case) -> bool {
    holds(case, 7, |leaves| { choice_agrees(case, leaves).is_some() })
}
