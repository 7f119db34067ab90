// Flat arrays and their rows (document 01, 'From generics and vectors to lent slices'): parts that are filled and
// copied. Vectors of vectors are flat arrays with a row length; a row is lent as a part. A row that is only read is
// lent by `row`; one that is written is cut where it is lent. There is no `row_mut`: a function that hands a cut back
// as `&mut` has to say how the array ends (`ensures*`, Lends), and of a cut of a slice the borrow checker does not
// prove that.
#![tactic(auto)]

ghost use Rattle.std.specs.Prelude.{◌≡◌, ℕ, ◌+◌, ◌*◌, ◌<◌, ◌≤◌, ◌++◌, length, replicate, drop};
ghost use Rattle.rows.specs.Rows.{Alike, Apart, part, put_part, row_of};
ghost use Rattle.rows.specs.Tabulate.{tabulate, Gives};

// Every element becomes x. The library's `fill` asks for a clone that can't fail, which a Copy type doesn't promise.
pub fn fill<T: Copy>(v: &mut [T], x: T)
    ensures { v.new ≡ replicate (length v.old) x }
{
    for e in v.iter_mut() {
        *e = x;
    }
}

// Each element becomes the value of its place.
pub fn put<T: Copy, F: Fn(usize) -> T>(v: &mut [T], value: F)
    requires { (j : ℕ) → j < length v.old → F.pre value j }
    ensures { (f : ℕ → T) → Gives (λ j x. F.post value j x) f (length v.old) → v.new ≡ tabulate f (length v.old) }
{
    for (j, e) in v.iter_mut().enumerate() {
        *e = value(j);
    }
}

// to becomes from. This copy and the next two are loops, since the library's `copy_from_slice` calls C's memmove.
pub fn copy<T: Copy>(to: &mut [T], from: &[T])
    requires { Alike to.old from.now }
    ensures { to.new ≡ from.now }
{
    for j in 0..from.len() {
        to[j] = from[j];
    }
}

// The elements of `from` become the first of `to`.
#[tactic(auto, using(crate::proofs::Fills::copied_turn))]
pub fn copy_front<T: Copy>(to: &mut [T], from: &[T])
    requires { length from.now ≤ length to.old }
    ensures { to.new ≡ from.now ++ drop (length from.now) to.old }
{
    for i in 0..from.len() {
        to[i] = from[i];
    }
}

// The n elements from place `at` on, copied to their place in another array. `from` is only read: it is lent as `&mut`,
// so that what holds it knows that it stays.
#[tactic(auto, using(crate::proofs::Rows::paste_turn))]
pub fn copy_part<T: Copy>(to: &mut [T], from: &mut [T], at: usize, n: usize)
    requires { (at + n ≤ length to.old) × (length from.old ≡ length to.old) }
    ensures { (to.new ≡ put_part to.old at n (part from.old at n)) × (from.new ≡ from.old) }
{
    for j in 0..n {
        to[at + j] = from[at + j];
    }
}

// A part of an array copied over an earlier one of the same array.
#[tactic(auto, using(crate::proofs::Rows::copy_turn))]
pub fn copy_within<T: Copy>(w: &mut [T], from: usize, to: usize, n: usize)
    requires { Apart (length w.old) from to n }
    ensures { w.new ≡ put_part w.old to n (part w.old from n) }
{
    for j in 0..n {
        w[to + j] = w[from + j];
    }
}

// Row i of rows of d elements.
pub fn row<T>(v: &[T], d: usize, i: usize) -> &[T]
    requires { i * d + d ≤ length v.now }
    ensures { result.now ≡ row_of v.now d i }
{
    let at = i * d;
    &v[at..at + d]
}
