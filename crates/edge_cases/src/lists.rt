// The lists of a line: a length, how many of the elements are written, and these; the last of them stands for the rest.
ghost use Rattle.words.specs.Words.{Counted};

use words::{plus, word};

// The place of the last element that is written of the list at word `at`, counted from its first.
fn last(line: &[u64], at: usize) -> usize {
    (word(line, plus(at, 1)) as usize).saturating_sub(1)
}

// The word after the list at word `at`.
pub(crate) fn after(line: &[u64], at: usize) -> usize {
    plus(plus(at, 2), word(line, plus(at, 1)) as usize)
}

// Puts the list at word `at` at the start of v, and answers its length; no more than v holds.
pub(crate) fn load(v: &mut [f64], line: &[u64], at: usize) -> usize
    ensures { Counted result v.new }
{
    words::load(
        v,
        line,
        plus(at, 2),
        last(line, at),
        word(line, at) as usize,
    )
}

// The list at word `at`, of bytes.
pub(crate) fn bytes_at(line: &[u64], at: usize) -> words::Bytes {
    words::Bytes {
        count: word(line, at) as usize,
        from: plus(at, 2),
        layout: words::Layout::Spread {
            last: last(line, at),
        },
    }
}
