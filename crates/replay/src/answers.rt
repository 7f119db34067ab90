// What the three fits answer, and what a case says of it.
use super::case::Case;
use super::outputs::{Form, Place};
use auto::{Chosen, NotChosen};
use limits::Refusal;
use words::plus;

// Whether the counts are the words from word `at` on.
fn counts_agree(c: counts::Counts, case: Case, at: usize) -> bool {
    c.made == case.word(at) && c.saved == case.word(plus(at, 1))
}

// Whether the answer is a number and the counts: the place after them, of that form.
fn answer_agrees(x: f64, counts: counts::Counts, case: Case, form: Form) -> Option<Place> {
    if !case.answer_is(x) || !counts_agree(counts, case, plus(case.ins, 1)) {
        return None;
    }
    Some(Place {
        at: plus(case.ins, 3),
        form,
    })
}

// Whether the answer is the cohesion and the counts: the place after them, of words.
pub(crate) fn clustering_agrees(
    r: Result<spherical::Clustered, Refusal>,
    case: Case,
) -> Option<Place> {
    let c = r.ok()?;
    answer_agrees(c.cohesion, c.counts, case, Form::Words)
}

// Whether the fit has k groups, and the answer is the log-likelihood and the counts: the place after them, of that
// form.
pub(crate) fn fit_agrees(
    r: Result<movmf::Fitted, Refusal>,
    k: u64,
    case: Case,
    form: Form,
) -> Option<Place> {
    let f = r.ok()?;
    if f.k as u64 != k {
        return None;
    }
    answer_agrees(f.loglik, f.counts, case, form)
}

// Whether the answer begins with the number kept, its log-likelihood and its score.
fn chosen_agrees(c: Chosen, case: Case) -> bool {
    c.k as u64 == case.word(case.ins)
        && case.is_number(c.loglik, plus(case.ins, 1))
        && case.is_number(c.score, plus(case.ins, 2))
}

// Whether the answer is the number, 0 where none is kept, its log-likelihood and score, and the counts. The place after
// them, of digests.
pub(crate) fn choice_agrees(r: Result<Chosen, NotChosen>, case: Case) -> Option<Place> {
    let at = plus(case.ins, 3);
    let same = match r {
        Ok(c) => chosen_agrees(c, case) && counts_agree(c.counts, case, at),
        Err(NotChosen::Unscored(n)) => case.word(case.ins) == 0 && counts_agree(n, case, at),
        Err(NotChosen::Refused(_)) => false,
    };
    if !same {
        return None;
    }
    Some(Place {
        at: plus(case.ins, 5),
        form: Form::Digest,
    })
}
