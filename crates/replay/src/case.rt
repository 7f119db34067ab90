// A case of the list: its words in, and then the answer.

#[derive(Clone, Copy)]
pub(crate) struct Case<'a> {
    pub(crate) words: &'a [u64],
    // How many words are in: the place of the answer.
    pub(crate) ins: usize,
}

impl Case<'_> {
    // Word j; 0 past the end.
    pub(crate) fn word(self, j: usize) -> u64 {
        words::word(self.words, j)
    }

    // The f64 whose pattern is word j.
    pub(crate) fn number(self, j: usize) -> f64 {
        words::number(self.words, j)
    }

    // Whether x has the pattern of word j.
    pub(crate) fn is_number(self, x: f64, j: usize) -> bool {
        words::is_number(x, self.words, j)
    }

    // Whether x is the answer, or its first number.
    pub(crate) fn answer_is(self, x: f64) -> bool {
        self.is_number(x, self.ins)
    }
}
