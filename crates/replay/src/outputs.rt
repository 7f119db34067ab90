// What a case says of an output: its words or a digest of them, and what lies behind it.
ghost use Rattle.std.specs.Prelude.{◌≡◌};

use super::case::Case;
use words::plus;

// How an output stands in a case: its words, or one word that is a digest of them.
#[derive(Clone, Copy, Debug, PartialEq, Eq)]
pub(crate) enum Form {
    Words,
    Digest,
}

// Where an output stands from word `at` on, in that form.
#[derive(Clone, Copy)]
pub(crate) struct Place {
    pub(crate) at: usize,
    pub(crate) form: Form,
}

// The place of an answer's words from word `at` on.
pub(crate) fn words_at(at: usize) -> Place {
    Place {
        at,
        form: Form::Words,
    }
}

// A digest with one word more.
fn digested(h: u64, w: u64) -> u64 {
    rng::mix(h.wrapping_add(w))
}

// The place after an output of n words, whose digest is h; none where the digest differs.
fn past(p: Place, n: usize, h: u64, case: Case) -> Option<Place> {
    match p.form {
        Form::Words => Some(Place {
            at: plus(p.at, n),
            ..p
        }),
        Form::Digest if h == case.word(p.at) => Some(Place {
            at: plus(p.at, 1),
            ..p
        }),
        Form::Digest => None,
    }
}

// Whether element j of n, whose word is w, may stand there: one of the first n as the place says, one after them as
// `rest`.
fn stands(w: u64, j: usize, n: usize, rest: u64, case: Case, p: Place) -> bool {
    if j < n {
        return p.form == Form::Digest || w == case.word(plus(p.at, j));
    }
    w == rest
}

// Compares the first n of v with what p says, and the others with `rest`: the place after it, none where they differ.
fn agree<T: Copy, F: Fn(T) -> u64>(
    v: &[T],
    word_of: F,
    n: usize,
    rest: u64,
    case: Case,
    p: Place,
) -> Option<Place>
    requires { F.IsAlwaysCallable word_of }
{
    let mut h = 0;
    for (j, x) in v.iter().enumerate() {
        let w = word_of(*x);
        if !stands(w, j, n, rest, case, p) {
            return None;
        }
        if j < n {
            h = digested(h, w);
        }
    }
    past(p, n, h, case)
}

// Labels, the others still 7.
pub(crate) fn labels_agree(v: &[u32], n: usize, case: Case, p: Place) -> Option<Place> {
    agree(v, |x| u64::from(x), n, 7, case, p)
}

// The same of f64, the others still 7.5.
pub(crate) fn rows_agree(v: &[f64], n: usize, case: Case, p: Place) -> Option<Place> {
    agree(v, |x| float::bits_of(x), n, 0x401E_0000_0000_0000, case, p)
}
