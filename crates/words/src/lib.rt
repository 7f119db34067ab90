// What the programs that run lists of examples read. A text's words are hexadecimal numbers, each with one byte after
// it that is no digit. They are read once, to an array of whole numbers; an example's numbers, vectors and lists are
// parts of that array.
#![tactic(auto)]

ghost use Rattle.std.specs.Prelude.{◌≡◌, ◌↔◌, IsTrue, ℕ, ◌+◌, ◌≤◌, min, eqb};
ghost use Rattle.std.specs.Prelude.{List, length, take, drop, get_or, replicate};
ghost use Rattle.std.specs.Float.{binary64};
ghost use Rattle.std.specs.Float.Ieee.{of_bits, to_bits};
ghost use Rattle.std.specs.Fn.{FnOnceReturnsAtMut};
ghost use Rattle.rows.specs.Tabulate.{tabulate, Gives};
ghost use Rattle.words.specs.Words.{Counted, digit_of, words_of, place_of};
ghost use Rattle.words.specs.Words.{plus_of, element_of, values_up_to, byte_of, bytes_up_to};
ghost use Rattle.words.specs.Words.{due_at, AreBytes};
ghost use Rattle.words.specs.Arithmetic.{operation_of, arithmetic_of};

// The sum of two places or counts, each modulo 2^32.
pub fn plus(a: usize, b: usize) -> usize
    ensures { result ≡ plus_of a b }
{
    a % 4294967296 + b % 4294967296
}

// The value of a hexadecimal digit; 16 for any other byte.
#[tactic(auto, unfolding(crate::specs::Words::digit_of))]
fn digit(b: u8) -> u64
    ensures { result ≡ digit_of b }
{
    match b {
        b'0'..=b'9' => u64::from(b - b'0'),
        b'a'..=b'f' => u64::from(b - b'a' + 10),
        _ => 16,
    }
}

// Puts the words of a text at the start of `to`, and answers how many; no more than `to` holds.
pub fn read(to: &mut [u64], text: &[u8]) -> usize
    ensures counted { Counted result to.new }
    ensures to_after { take result to.new ≡ take (length to.old) (words_of text.now) }
{
    let mut n = 0;
    let mut x: u64 = 0;
    for b in text {
        if n == to.len() {
            return n;
        }
        let d = digit(*b);
        if d < 16 {
            x = x % 0x1000_0000_0000_0000 * 16 + d;
        } else {
            to[n] = x;
            n += 1;
            x = 0;
        }
    }
    n
}

// The place of the first byte b from place `from` on; the text's end and no None where there is none, since callers cut
// the text there. A loop: with `position` in its place the search finds no proof.
pub fn place_of(text: &[u8], from: usize, b: u8) -> usize
    requires { from ≤ length text.now }
    ensures lower_bound { from ≤ result }
    ensures upper_bound { result ≤ length text.now }
    ensures value { result ≡ from + place_of b (drop from text.now) }
{
    for i in from..text.len() {
        if text[i] == b {
            return i;
        }
    }
    text.len()
}

// Word j; 0 past the end.
pub fn word(words: &[u64], j: usize) -> u64
    ensures { result ≡ get_or words.now j 0 }
{
    if j < words.len() { words[j] } else { 0 }
}

// The f64 whose pattern is word j.
pub fn number(words: &[u64], j: usize) -> f64
    ensures { result ≡ of_bits binary64 (get_or words.now j 0) }
{
    float::of_bits(word(words, j))
}

// Whether x has the pattern of word j.
pub fn is_number(x: f64, words: &[u64], j: usize) -> bool
    ensures { result ≡ eqb (to_bits binary64 x) (get_or words.now j 0) }
{
    float::bits_of(x) == word(words, j)
}

// Puts the first n elements of a list at the start of v, and answers n; no more than v holds.
fn fill_by<T: Copy, F: Fn(usize) -> T>(v: &mut [T], n: usize, element: F) -> usize
    requires { F.IsAlwaysCallable element }
    ensures counted { Counted result v.new }
    ensures value { result ≡ min n (length v.old) }
    ensures v_after { (f : ℕ → T) → Gives (λ j x. F.post element j x) f result → take result v.new ≡ tabulate f result }
{
    let m = n.min(v.len());
    let part = &mut v[..m];
    rows::put(part, element);
    m
}

// Element j of the list from word `from` on, of which elements 0 to `last` are written; the last of them stands for the
// rest.
pub fn element(words: &[u64], from: usize, last: usize, j: usize) -> u64
    ensures { result ≡ element_of words.now from last j }
{
    word(words, plus(from, j.min(last)))
}

// Puts the first n elements of that list at the start of v, and answers n; no more than v holds.
pub fn load(v: &mut [f64], words: &[u64], from: usize, last: usize, n: usize) -> usize
    ensures counted { Counted result v.new }
    ensures value { result ≡ min n (length v.old) }
    ensures v_after { take result v.new ≡ values_up_to words.now from last result }
{
    fill_by(v, n, |j| float::of_bits(element(words, from, last, j)))
}

// How the bytes of a list stand: eight to a word, the first lowest; or one to a word, of which elements 0 to `last` are
// written and the last of them stands for the rest.
#[derive(Clone, Copy)]
pub enum Layout {
    Packed,
    Spread { last: usize },
}

// A list of `count` bytes from word `from` on.
#[derive(Clone, Copy)]
pub struct Bytes {
    pub count: usize,
    pub from: usize,
    pub layout: Layout,
}

// Byte j of a list.
fn byte(words: &[u64], list: Bytes, j: usize) -> u8
    ensures { result ≡ byte_of words.now list j }
{
    let value = match list.layout {
        Layout::Packed => word(words, plus(list.from, j / 8)) >> (j % 8 * 8),
        Layout::Spread { last } => element(words, list.from, last, j),
    };
    (value % 256) as u8
}

// Puts a list at the start of v, and answers its length; no more than v holds.
pub fn load_bytes(v: &mut [u8], words: &[u64], list: Bytes) -> usize
    ensures counted { Counted result v.new }
    ensures value { result ≡ min list.count (length v.old) }
    ensures v_after { take result v.new ≡ bytes_up_to words.now list result }
{
    fill_by(v, list.count, |j| byte(words, list, j))
}

// What place j of an array is due, where the list's first n bytes stand at its start and the rest is still 7.
fn due(words: &[u64], list: Bytes, n: usize, j: usize) -> u8
    ensures { result ≡ due_at words.now list n j }
{
    if j < n { byte(words, list, j) } else { 7 }
}

// Whether the first n of v are the list, and the rest are still 7.
pub fn are_bytes(v: &[u8; 4096], n: usize, words: &[u64], list: Bytes) -> bool
    ensures { IsTrue result ↔ AreBytes v.now n words.now list }
{
    v.iter()
        .enumerate()
        .all(|(j, x)| *x == due(words, list, n, j))
        && n == list.count
}

// Whether `print` puts the list at the start of an array of 7, answers its length, and leaves the rest.
pub fn fills<F: FnOnce(&mut [u8; 4096]) -> usize>(words: &[u64], list: Bytes, print: F) -> bool
    requires { F.IsAlwaysCallable print }
    ensures { (n : ℕ) × (v : List ℕ) × (FnOnceReturnsAtMut F.FnOnce print (replicate 4096 7) n v)
        × (IsTrue result ↔ AreBytes v n words.now list) }
{
    let mut out = [7u8; 4096];
    let n = print(&mut out);
    are_bytes(&out, n, words, list)
}

// The functions that examples are of.
#[derive(Clone, Copy, Debug, PartialEq, Eq, Hash)]
pub enum Operation {
    Root,
    Exp,
    Ln,
    Max,
    Clamp,
    Abs,
}

// By the kind of an example; abs for a kind that names none. A From and no TryFrom, since both programs look at the
// kind before and so ask it of no other.
impl From<u64> for Operation {
    ghost from_gives = { λ kind operation. operation ≡ operation_of kind };

    fn from(kind: u64) -> Operation {
        match kind {
            1 => Operation::Root,
            2 => Operation::Exp,
            3 => Operation::Ln,
            4 => Operation::Max,
            5 => Operation::Clamp,
            _ => Operation::Abs,
        }
    }
}

// What a function gives.
pub fn arithmetic(operation: Operation, x: f64, y: f64, z: f64) -> f64
    ensures { result ≡ arithmetic_of operation x y z }
{
    match operation {
        Operation::Root => root::root(x),
        Operation::Exp => exponential::exp(x),
        Operation::Ln => logarithm::ln(x),
        Operation::Max => float::max(x, y),
        Operation::Clamp => float::clamp(x, y, z),
        Operation::Abs => float::abs(x),
    }
}
