// The square root of an f64 (document 01, 'Arithmetic under the Rust'), by a loop over the 53 binary places of its Y:
// of one root, or of any number of roots in step. It takes any f64.
#![tactic(auto)]

ghost use Rattle.std.specs.Prelude.{◌≡◌, ◌^◌, ◌≤◌, map, T};
ghost use Rattle.std.specs.List.{All};
ghost use Rattle.std.specs.Float.Ieee.Positive.{positive};
ghost use Rattle.root.specs.Root.{root_of};
ghost use Rattle.root.specs.Steps.{Words, Placed, Open, Found, Finished};

// What the highest of the 53 places of a root is worth: 2^52.
const TOP: u64 = 4503599627370496;

// A root on its way, of which y is found and n places are open. What is left of the number is `rest`: four times what
// document 01's x * 2^(-2q) is above y^2, in units of 2^n. The next place needs `step` of it, 4 * y + 2^n. Once all is
// found the root is y * 2^power, rounded, in units of 2^-1074.
#[derive(Clone, Copy)]
struct Square {
    rest: u64,
    step: u64,
    power: u64,
}

// All 53 places of the root of x are open, and y is 0.
fn begin(x: f64) -> Square
    requires { T (positive x) }
    ensures { Open x (2 ^ 52) result }
{
    let s = float::split(x);
    Square {
        rest: s.m << (s.e % 2 + 1),
        step: TOP * 2,
        power: s.e / 2 + 485,
    }
}

// One place more, worth `top`: it belongs to the root where what is left reaches the step. Then what is left counts
// double, since the next place is worth half. The test is on the difference, and `less`, which is -top, is handed in:
// so the compiler subtracts once and needs no jump.
fn place(s: Square, top: u64, less: u64) -> Square
    requires { Words top less s }
    ensures { Placed top s result }
{
    let over = s.rest.wrapping_sub(s.step);
    if over < 0x8000_0000_0000_0000 {
        Square {
            rest: over * 2,
            step: s.step + top * 3,
            ..s
        }
    } else {
        Square {
            rest: s.rest * 2,
            step: s.step.wrapping_add(less),
            ..s
        }
    }
}

// The root, once no place is open: y, which is a quarter of the step, and one more where what is left is above 4 * y.
fn finish(s: Square) -> f64
    requires { Found s }
    ensures { Finished s result }
{
    let y = s.step / 4;
    if y * 4 < s.rest {
        float::compose(y + 1, s.power)
    } else {
        float::compose(y, s.power)
    }
}

// The square roots of positive numbers, in step. At each turn the places from the one worth `top` down are open. The
// loop counts nothing: what a place is worth is halved until nothing is left.
fn positive_roots<const N: usize>(x: [f64; N]) -> [f64; N]
    requires fits { N ≤ 2 ^ 32 }
    requires positive { All (λ v. T (positive v)) x }
    ensures { result ≡ map root_of x.entry }
{
    let mut s = x.map(begin);
    let mut top = TOP;
    while 0 < top {
        let less = top.wrapping_neg();
        s = s.map(|square| place(square, top, less));
        top = top / 2;
    }
    s.map(finish)
}

// The square root: NaN for NaN and below zero, zeros and +infinity kept.
pub fn root(x: f64) -> f64
    ensures { result ≡ root_of x }
{
    if x == 0.0 {
        return x;
    }
    if x < 0.0 {
        return 0.0 / 0.0;
    }
    if x < 1.0 / 0.0 {
        positive_roots([x])[0]
    } else {
        x
    }
}

// Whether x is above zero and finite.
fn is_positive(x: f64) -> bool
    ensures { result ≡ positive x }
{
    (0.0 < x) & (x < 1.0 / 0.0)
}

// Square roots: in step where all the numbers are above zero and finite, else one by one.
pub fn roots<const N: usize>(x: [f64; N]) -> [f64; N]
    requires fits { N ≤ 2 ^ 32 }
    ensures { result ≡ map root_of x.entry }
{
    if x.iter().all(|v| is_positive(*v)) {
        positive_roots(x)
    } else {
        x.map(root)
    }
}
