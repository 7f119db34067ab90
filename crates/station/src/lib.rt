// The three entries for a program in C or Rust (document 01, 'Refusals by call'): numbers and arrays in, the answer
// through what is lent, the number of the refusal back, 0 for none. A slice crosses the border as a pointer and a
// length; include/mosterklomp.h declares the functions.
#![tactic(auto)]

ghost use Rattle.std.specs.Prelude.{◌≡◌, length, Ok};
ghost use Rattle.mixture_outputs.specs.Outputs.{arrays};
ghost use Rattle.mixture_outputs.specs.Labels.{LabelsFirst};
ghost use Rattle.spherical.specs.Outcome.{outcome as clusteredOutcome};
ghost use Rattle.spherical.specs.Answers.{numbers_of as clusteredNumbersOf};
ghost use Rattle.movmf.specs.Outcome.{outcome as fittedOutcome};
ghost use Rattle.movmf.specs.Answers.{numbers_of as fittedNumbersOf};
ghost use Rattle.auto.specs.Outcome.{outcome as chosenOutcome};
ghost use Rattle.auto.specs.Answers.{numbers_of as chosenNumbersOf};
ghost use Rattle.auto.specs.Best.{KeepsBest};
ghost use Rattle.mixture_kappa.specs.declared.Kappa.{Kappa};
ghost use Rattle.border.specs.Answers.{checked_kappa, fitted_by, chosen_by, clustered, fitted, chosen};

// `spherical::spherical_kmeans`.
#[unsafe(no_mangle)]
#[tactic(auto, using(border::proofs::Put::clustered_same))]
pub extern "C" fn mosterklomp_spherical_kmeans(
    weights: &[f64],
    coords: &[f64],
    d: usize,
    k: usize,
    rounds: usize,
    restarts: usize,
    seed: u64,
    labels: &mut [u32],
    directions: &mut [f64],
    work: &mut [f64],
    work_u32: &mut [u32],
    cohesion: &mut f64,
    counts: &mut [u64; 2],
) -> u32
    ensures { let o = clusteredOutcome labels.old directions.old weights.now
        coords.now d k rounds restarts seed (length work.old)
        (length work_u32.old) in
        (clustered result cohesion.new counts.new
        ≡ clusteredNumbersOf (clustered 0 cohesion.old counts.old) o.answer)
        × (labels.new ≡ o.labels) × (directions.new ≡ o.directions) }
{
    let a = spherical::spherical_kmeans(
        weights, coords, d, k, rounds, restarts, seed, labels, directions, work, work_u32,
    );
    border::give_clustered(a, cohesion, counts)
}

// `movmf::movmf_with`.
#[unsafe(no_mangle)]
#[tactic(auto, using(border::proofs::Put::fitted_same))]
pub extern "C" fn mosterklomp_movmf_with(
    weights: &[f64],
    coords: &[f64],
    d: usize,
    k: usize,
    rounds: usize,
    seed: u64,
    kappa: u32,
    fixed: f64,
    labels: &mut [u32],
    responsibilities: &mut [f64],
    group_weights: &mut [f64],
    directions: &mut [f64],
    concentrations: &mut [f64],
    logw: &mut [f64],
    work: &mut [f64],
    work_u32: &mut [u32],
    groups: &mut usize,
    loglik: &mut f64,
    counts: &mut [u64; 2],
) -> u32
    ensures fact { let o = arrays labels.old responsibilities.old
        group_weights.old directions.old concentrations.old logw.old in
        let o = fitted_by kappa o (λ (z : Kappa). fittedOutcome o weights.now coords.now d k
        (record { rounds = rounds; seed = seed; kappa = z }) (length work.old)
        (length work_u32.old)) in
        (fitted result groups.new loglik.new counts.new
        ≡ fittedNumbersOf (fitted 0 groups.old loglik.old counts.old) o.answer)
        × (arrays labels.new responsibilities.new group_weights.new
        directions.new concentrations.new logw.new ≡ o.outputs) }
    ensures labels_first { LabelsFirst (length weights.now) result groups.new
        (arrays labels.new responsibilities.new group_weights.new
        directions.new concentrations.new logw.new) }
{
    let kappa = match border::checked_kappa(kappa) {
        Ok(z) => z,
        Err(e) => return u32::from(e),
    };
    let s = mixture_kappa::Settings {
        rounds,
        seed,
        kappa,
    };
    let a = movmf::movmf_with(
        weights,
        coords,
        d,
        k,
        s,
        labels,
        responsibilities,
        group_weights,
        directions,
        concentrations,
        logw,
        work,
        work_u32,
    );
    border::give_fitted(a, groups, loglik, counts)
}

// `auto::movmf_auto_with`.
#[unsafe(no_mangle)]
#[tactic(auto, using(border::proofs::Put::chosen_same))]
pub extern "C" fn mosterklomp_movmf_auto_with(
    weights: &[f64],
    coords: &[f64],
    d: usize,
    k_min: usize,
    k_max: usize,
    rounds: usize,
    seed: u64,
    kappa: u32,
    fixed: f64,
    labels: &mut [u32],
    responsibilities: &mut [f64],
    group_weights: &mut [f64],
    directions: &mut [f64],
    concentrations: &mut [f64],
    logw: &mut [f64],
    work: &mut [f64],
    work_u32: &mut [u32],
    groups: &mut usize,
    loglik: &mut f64,
    score: &mut f64,
    counts: &mut [u64; 2],
) -> u32
    ensures fact { let o = arrays labels.old responsibilities.old
        group_weights.old directions.old concentrations.old logw.old in
        let o = chosen_by kappa o (λ (z : Kappa). chosenOutcome o weights.now coords.now d
        (record { rounds = rounds; seed = seed; kappa = z }) k_min k_max (length work.old)
        (length work_u32.old)) in
        (chosen result groups.new loglik.new score.new counts.new
        ≡ chosenNumbersOf (chosen 0 groups.old loglik.old score.old
        counts.old) o.answer) × (arrays labels.new responsibilities.new
        group_weights.new directions.new concentrations.new logw.new
        ≡ o.outputs) }
    ensures keeps_best { (z : Kappa) → checked_kappa kappa ≡ Ok z → KeepsBest (arrays labels.old
        responsibilities.old group_weights.old directions.old concentrations.old logw.old)
        weights.now coords.now d (record { rounds = rounds; seed = seed; kappa = z })
        k_min k_max (length work.old) (length work_u32.old)
        (chosen result groups.new loglik.new score.new counts.new)
        (arrays labels.new responsibilities.new group_weights.new
        directions.new concentrations.new logw.new) }
    ensures labels_first { LabelsFirst (length weights.now) result groups.new
        (arrays labels.new responsibilities.new group_weights.new
        directions.new concentrations.new logw.new) }
{
    let kappa = match border::checked_kappa(kappa) {
        Ok(z) => z,
        Err(e) => return u32::from(e),
    };
    let s = mixture_kappa::Settings {
        rounds,
        seed,
        kappa,
    };
    let a = auto::movmf_auto_with(
        weights,
        coords,
        d,
        k_min,
        k_max,
        s,
        labels,
        responsibilities,
        group_weights,
        directions,
        concentrations,
        logw,
        work,
        work_u32,
    );
    border::give_chosen(a, groups, loglik, score, counts)
}
