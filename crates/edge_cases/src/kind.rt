// What a line's example is of, by the number in its word 0.
use words::Operation;

#[derive(Clone, Copy, Debug, PartialEq, Eq)]
pub(crate) enum Kind {
    // The numbers of a seed, printed.
    Draws,
    // An operation gives a value.
    Gives(Operation),
    // An operation gives a value between two others.
    Between(Operation),
    RestartSeed,
    Clustering,
    Mixture,
    Choice,
    // The fit of a leaf file.
    FileFit,
    // The listing of a leaf file.
    Listing,
    // An entry of the table of ln_gamma.
    Entry,
}

// A From and no TryFrom: the list is this project's own, and has no other number.
impl From<u64> for Kind {
    fn from(number: u64) -> Kind {
        match number {
            0 => Kind::Draws,
            1..=6 => Kind::Gives(Operation::from(number)),
            7 => Kind::Between(Operation::Exp),
            8 => Kind::Between(Operation::Ln),
            9 => Kind::RestartSeed,
            10 => Kind::Clustering,
            11 => Kind::Mixture,
            12 => Kind::Choice,
            13 => Kind::FileFit,
            15 => Kind::Entry,
            // 14, and any number that is no other kind's.
            _ => Kind::Listing,
        }
    }
}
