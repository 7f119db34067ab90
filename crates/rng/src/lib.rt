// SplitMix64 (rng.rs; document 01, 'SplitMix64'). A draw is made by value: a state goes in, and the moved state comes
// back with what was drawn. The generator is lent, and its state moves on in place, by thin functions over such a draw.
// The product modulo 2^64 is made of 32-bit halves, and gives the restarts' seeds too.
#![tactic(auto)]

ghost use Rattle.std.specs.Prelude.{◌≡◌, ℕ, ◌*◌, ◌%◌, ◌^◌};
ghost use Rattle.rng.specs.SplitMix.{step_of, mix_of, unit_of, restart_seed_of};
ghost use Rattle.rng.specs.Drawn.{drawn_as, drawn, drawn_f64};

// a * b, modulo 2^64, from halves of 32 bits. The product of the high halves is a multiple of 2^64. Document 01 names
// this form, so it stands beside the library's wrapping_mul.
pub fn wrapping_mul_u64(a: u64, b: u64) -> u64
    ensures { result ≡ a * b % 2 ^ 64 }
{
    let a0 = a % 0x1_0000_0000;
    let a1 = a >> 32;
    let b0 = b % 0x1_0000_0000;
    let b1 = b >> 32;
    let cross = (a1 * b0).wrapping_add(a0 * b1);
    (a0 * b0).wrapping_add(cross << 32)
}

// The state moved on.
fn step(state: u64) -> u64
    ensures { result ≡ step_of state }
{
    state.wrapping_add(0x9E37_79B9_7F4A_7C15)
}

// The number that a moved state gives.
pub fn mix(z: u64) -> u64
    ensures { result ≡ mix_of z }
{
    let y = wrapping_mul_u64(z ^ (z >> 30), 0xBF58_476D_1CE4_E5B9);
    let w = wrapping_mul_u64(y ^ (y >> 27), 0x94D0_49BB_1331_11EB);
    w ^ (w >> 31)
}

// The top 53 bits of x, over 2^53: from 0 to below 1.
pub fn unit_f64(x: u64) -> f64
    ensures { result ≡ unit_of x }
{
    (x >> 11) as f64 / 9007199254740992.0
}

// What can be drawn, made of a word that the generator gives.
pub trait FromWord {
    ghost of_word: { ℕ → Self };

    fn of_word(x: u64) -> Self
        ensures { result ≡ of_word x };
}

// The word itself.
impl FromWord for u64 {
    ghost of_word = { λ x. x };

    fn of_word(x: u64) -> u64 {
        x
    }
}

// The fraction, from 0 to below 1.
impl FromWord for f64 {
    ghost of_word = { unit_of };

    fn of_word(x: u64) -> f64 {
        unit_f64(x)
    }
}

// The moved state, and what was drawn.
#[derive(Clone, Copy)]
pub struct Drawn<T> {
    pub state: u64,
    pub out: T,
}

pub fn draw<T: FromWord>(state: u64) -> Drawn<T>
    ensures { result ≡ drawn_as T.of_word state }
{
    let s = step(state);
    Drawn {
        state: s,
        out: T::of_word(mix(s)),
    }
}

// The generator.
#[derive(Drop)]
pub struct SplitMix64 {
    pub state: u64,
}

impl SplitMix64 {
    pub fn new(seed: u64) -> SplitMix64
        ensures { result ≡ record { state = seed } }
    {
        SplitMix64 { state: seed }
    }
}

// The next number of a lent generator, whose state moves on in place. Document 01 names this function and the next one.
pub fn next_u64(g: &mut SplitMix64) -> u64
    ensures { record { state = g.new.state; out = result } ≡ drawn g.old.state }
{
    let d = draw(g.state);
    g.state = d.state;
    d.out
}

// The next fraction of a lent generator, from 0 to below 1; one number is spent.
pub fn next_f64(g: &mut SplitMix64) -> f64
    ensures { record { state = g.new.state; out = result } ≡ drawn_f64 g.old.state }
{
    let x = draw(g.state);
    g.state = x.state;
    x.out
}

// The seed of restart s: seed + s * 0x9E3779B9, modulo 2^64.
pub fn restart_seed(seed: u64, s: u64) -> u64
    ensures { result ≡ restart_seed_of seed s }
{
    seed.wrapping_add(wrapping_mul_u64(s, 0x9E37_79B9))
}
