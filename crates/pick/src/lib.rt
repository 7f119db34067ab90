// The places that vmf.rs picks in a vector, on lent slices of f64: the greatest, the least, and one with a chance in
// proportion to its weight; and the best with the next of numbers that come one by one.
#![tactic(auto)]

ghost use Rattle.std.specs.Prelude.{◌≡◌, Bool, Float};
ghost use Rattle.pick.specs.Places.{Tests, best_with, place_of, argmax_of, argmin_of};
ghost use Rattle.pick.specs.Pick.{pick_of, pick_from};

// From the first place on, an element takes the place where it passes the one held; the place held at the end.
fn place_by<F: Fn(f64, f64) -> bool>(v: &[f64], passes: F) -> usize
    requires { F.IsAlwaysCallable passes }
    ensures { (test : Float → Float → Bool) → Tests (λ x y t. F.post passes x y t) test → result ≡ place_of test v.now }
{
    let mut best = 0;
    for i in 1..v.len() {
        if passes(v[i], v[best]) {
            best = i;
        }
    }
    best
}

// The place of the greatest element, the first of equals; 0 in an empty vector.
pub fn argmax(v: &[f64]) -> usize
    ensures { result ≡ argmax_of v.now }
{
    place_by(v, |x, held| held < x)
}

// The place of the least element, the first of equals; 0 in an empty vector.
pub fn argmin(v: &[f64]) -> usize
    ensures { result ≡ argmin_of v.now }
{
    place_by(v, |x, held| x < held)
}

// Of the elements looked at the best, which is the one that passes all others by a test, its place, and the next.
#[derive(Clone, Copy)]
pub struct Best {
    pub index: usize,
    pub value: f64,
    pub next: f64,
}

impl Best {
    // With element v at place i: the best where it passes it by the test, else the next where it passes that.
    #[tactic(auto, unfolding(crate::specs::Places::best_with))]
    pub fn with<F: Fn(f64, f64) -> bool>(self, i: usize, v: f64, passes: F) -> Best
        requires { F.IsAlwaysCallable passes }
        ensures { (test : Float → Float → Bool) → Tests (λ x y t. F.post passes x y t) test
            → result ≡ best_with test self i v }
    {
        if passes(v, self.value) {
            return Best {
                index: i,
                value: v,
                next: self.value,
            };
        }
        if passes(v, self.next) {
            return Best { next: v, ..self };
        }
        self
    }
}

// What a pick answers: the place, and the generator after its draw.
#[derive(Clone, Copy)]
pub struct Picked {
    pub index: usize,
    pub generator: u64,
}

// The first place with t at or below 0 once its weight is taken off, else the last.
fn pick_at(w: &[f64], start: f64) -> usize
    ensures { result ≡ pick_from start 0 w.now }
{
    let mut t = start;
    for (i, x) in w.iter().enumerate() {
        t = t - *x;
        if t <= 0.0 {
            return i;
        }
    }
    w.len().saturating_sub(1)
}

// A place with a chance in proportion to its weight, by one draw from the generator.
pub fn weighted_pick(w: &[f64], generator: u64) -> Picked
    ensures { result ≡ pick_of w.now generator }
{
    let total = vector::sum(w);
    let drawn = rng::draw::<u64>(generator);
    if total <= 0.0 {
        return Picked {
            index: drawn.out as usize % w.len().max(1),
            generator: drawn.state,
        };
    }
    Picked {
        index: pick_at(w, rng::unit_f64(drawn.out) * total),
        generator: drawn.state,
    }
}
