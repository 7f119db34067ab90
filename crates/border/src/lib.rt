// What crosses the border to C (document 01, 'Refusals by call'): the kind of a Kappa, and the numbers of an answer,
// which are put into what is lent; the number of the refusal goes back, 0 for none. C has no Result, so refusals and
// kinds are numbers here and in `station`; and each answer has numbers of its own, so that each has a giver of its own.
#![tactic(auto)]

ghost use Rattle.std.specs.Prelude.{◌≡◌, ℕ, Option, None};
ghost use Rattle.counts.specs.declared.Counts.{Counts};
ghost use Rattle.limits.specs.Refusals.{number_of};
ghost use Rattle.auto.specs.Answers.{number_of_not_chosen};
ghost use Rattle.border.specs.Answers.{kappa_of, kind_ok, checked_kappa, counts_of, clustered, fitted, chosen};
ghost use Rattle.border.specs.Answers.{clustered_put, fitted_put, chosen_put};

use auto::{Chosen, NotChosen};
use counts::Counts;
use limits::Refusal;
use mixture_kappa::Kappa;
use movmf::Fitted;
use spherical::Clustered;

// The kinds of Kappa that the border knows: 0 Free, 1 Shared.
pub fn kind_ok(kind: u32) -> bool
    ensures { result ≡ kind_ok kind }
{
    kind <= 1
}

// Shared or Free: a kind that the border does not know is Free too.
pub fn kappa_of(kind: u32) -> Kappa
    ensures { result ≡ kappa_of kind }
{
    if kind == 1 {
        Kappa::Shared
    } else {
        Kappa::Free
    }
}

// The Kappa of a kind that the border knows, and 13 for any other. A function and no TryFrom: it is how C names a
// Kappa, and nothing else asks for it.
pub fn checked_kappa(kind: u32) -> Result<Kappa, Refusal>
    ensures { result ≡ checked_kappa kind }
{
    match kind {
        0 => Ok(Kappa::Free),
        1 => Ok(Kappa::Shared),
        _ => Err(Refusal::Kappa),
    }
}

// What a call that finds nothing answers to C: a number, and the counts where it has them.
pub trait Refuses: Copy {
    ghost number: { Self → ℕ };

    ghost counts: { Self → Option Counts };

    fn number(self) -> u32
        ensures { result ≡ number self };

    fn counts(self) -> Option<Counts>
        ensures { result ≡ counts self };
}

// The number itself.
impl Refuses for u32 {
    ghost number = { λ n. n };

    ghost counts = { λ n. None };

    fn number(self) -> u32 {
        self
    }

    fn counts(self) -> Option<Counts> {
        None
    }
}

impl Refuses for Refusal {
    ghost number = { number_of };

    ghost counts = { λ e. None };

    fn number(self) -> u32 {
        u32::from(self)
    }

    fn counts(self) -> Option<Counts> {
        None
    }
}

// 7 has the counts.
impl Refuses for NotChosen {
    ghost number = { number_of_not_chosen };

    ghost counts = { counts_of };

    fn number(self) -> u32 {
        u32::from(self)
    }

    fn counts(self) -> Option<Counts> {
        match self {
            NotChosen::Refused(_) => None,
            NotChosen::Unscored(c) => Some(c),
        }
    }
}

// The number of the refusal; the cohesion and the counts where there is none.
pub fn give_clustered<E: Refuses>(
    a: Result<Clustered, E>,
    cohesion: &mut f64,
    counts: &mut [u64; 2],
) -> u32
    ensures { clustered result cohesion.new counts.new
        ≡ clustered_put E.number (clustered 0 cohesion.old counts.old) a }
{
    match a {
        Ok(c) => {
            *cohesion = c.cohesion;
            *counts = [c.counts.made, c.counts.saved];
            0
        }
        Err(e) => e.number(),
    }
}

// The number of the refusal; the number of groups, the log-likelihood and the counts where there is none.
pub fn give_fitted<E: Refuses>(
    a: Result<Fitted, E>,
    groups: &mut usize,
    loglik: &mut f64,
    counts: &mut [u64; 2],
) -> u32
    ensures { fitted result groups.new loglik.new counts.new
        ≡ fitted_put E.number (fitted 0 groups.old loglik.old counts.old) a }
{
    match a {
        Ok(f) => {
            *groups = f.k;
            *loglik = f.loglik;
            *counts = [f.counts.made, f.counts.saved];
            0
        }
        Err(e) => e.number(),
    }
}

// The number of the refusal; the number kept, its log-likelihood and score where there is none; the counts there and
// where a refusal has them.
pub fn give_chosen<E: Refuses>(
    a: Result<Chosen, E>,
    groups: &mut usize,
    loglik: &mut f64,
    score: &mut f64,
    counts: &mut [u64; 2],
) -> u32
    ensures { chosen result groups.new loglik.new score.new counts.new
        ≡ chosen_put E.number E.counts (chosen 0 groups.old loglik.old score.old
        counts.old) a }
{
    match a {
        Ok(c) => {
            *groups = c.k;
            *loglik = c.loglik;
            *score = c.score;
            *counts = [c.counts.made, c.counts.saved];
            0
        }
        Err(e) => {
            if let Some(c) = e.counts() {
                *counts = [c.made, c.saved];
            }
            e.number()
        }
    }
}
