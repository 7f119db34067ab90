// The counts of a call (document 01, 'Leaves, settings, fit'): the products that the assignment passes made, and those
// that they saved. Every answer holds one, and it is added up over rounds, restarts and numbers of groups.
#![tactic(auto)]

ghost use Rattle.std.specs.Prelude.{◌≡◌};
ghost use Rattle.counts.specs.Counts.{no_counts, plus_of, AtMost, of_call};

use std::ops::Add;

#[derive(Clone, Copy, Debug, PartialEq, Eq)]
pub struct Counts {
    pub made: u64,
    pub saved: u64,
}

// Before the first pass. By hand, since it promises the definition's no_counts, which a derive says field by field.
impl Default for Counts {
    ghost is_default = { λ c. c ≡ no_counts };

    fn default() -> Counts {
        Counts { made: 0, saved: 0 }
    }
}

// Those of two parts of a call together.
impl Add for Counts {
    type Output = Counts;

    ghost can_add = { λ a b. (AtMost of_call a) × (AtMost of_call b) };

    ghost add_gives = { λ a b c. c ≡ plus_of a b };

    fn add(self, other: Counts) -> Counts {
        Counts {
            made: self.made + other.made,
            saved: self.saved + other.saved,
        }
    }
}
