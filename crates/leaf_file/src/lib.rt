// Leaf files and their listing (document 01, 'Leaf file and listing program'): a file's leaves are read from its bytes,
// fitted by the automatic fit, and listed as text.
#![tactic(auto)]

ghost use Rattle.std.specs.Prelude.{◌≡◌, ◌++◌, ◌+◌, ◌*◌, ◌≤◌, ◌<◌, length, take, drop, Ok};
ghost use Rattle.leaf_file.specs.LeafFile.{whole_at, f64_at, f64s_at, refusal_by, file_refusal, leaves_of, leaves_in};
ghost use Rattle.leaf_file.specs.LeafFile.{header_of};
ghost use Rattle.leaf_file.specs.LeafFile.{LeavesKeepBest, FileFit, file_fit_by, file_fit};
ghost use Rattle.leaf_file.specs.Listing.{decimal, number_line, shop_line, shop_lines, groups_text};
ghost use Rattle.leaf_file.specs.Listing.{text_of, listing};
ghost use Rattle.leaf_file.specs.Texts.{Sized, Grown};

use auto::{Chosen, NotChosen};
use limits::{Refusal, need};

// The greatest numbers of leaves of a file, of coordinates of a leaf, and of groups tried.
const LEAVES: usize = 64;

const COORDINATES: usize = 16;

const GROUPS: usize = 4;

// The length of the longest leaf file.
pub const LONGEST: usize = 8 + 8 * LEAVES + 8 * LEAVES * COORDINATES;

// ---- reading

// The N bytes from `at` on.
fn array_at<const N: usize>(bytes: &[u8], at: usize) -> [u8; N]
    requires { at + N ≤ length bytes.now }
    ensures { result ≡ take N (drop at bytes.now) }
{
    let mut b = [0; N];
    b.copy_from_slice(&bytes[at..at + N]);
    b
}

// The number of the four bytes from `at` on, the lowest first.
#[tactic(auto, unfolding(crate::specs::LeafFile::whole_at))]
fn u32_at(bytes: &[u8], at: usize) -> u64
    requires { at + 4 ≤ length bytes.now }
    ensures { (result ≡ whole_at bytes.now at 4) × (result < 4294967296) }
{
    u64::from(u32::from_le_bytes(array_at(bytes, at)))
}

// The f64 of the eight bytes from `at` on.
#[tactic(auto, unfolding(crate::specs::LeafFile::whole_at))]
fn f64_at(bytes: &[u8], at: usize) -> f64
    requires { at + 8 ≤ length bytes.now }
    ensures { result ≡ f64_at bytes.now at }
{
    float::of_bits(u64::from_le_bytes(array_at(bytes, at)))
}

// Fills out with the f64 from `at` on.
fn load(out: &mut [f64], bytes: &[u8], at: usize)
    requires { at + 8 * length out.old ≤ length bytes.now }
    ensures { out.new ≡ f64s_at bytes.now at (length out.old) }
{
    rows::put(out, |i| f64_at(bytes, at + 8 * i));
}

// What is wrong with a file of n bytes, if anything: m or d too large, or the length.
fn check_sizes(n: usize, m: u64, d: u64) -> Result<(), Refusal>
    ensures { result ≡ refusal_by n m d }
{
    need(
        m <= LEAVES as u64 && d <= COORDINATES as u64,
        Refusal::FileSizes,
    )?;
    let leaves = m as usize;
    let coords = (m * d) as usize;
    need(n == 8 + 8 * leaves + 8 * coords, Refusal::FileLength)
}

// The sizes that a file says.
#[derive(Clone, Copy)]
struct Header {
    m: usize,
    d: usize,
}

// The sizes that a file says, unless it is refused.
#[tactic(auto, unfolding(crate::specs::LeafFile::file_refusal))]
fn header_of(bytes: &[u8]) -> Result<Header, Refusal>
    ensures { result ≡ header_of bytes.now }
{
    need(8 <= bytes.len(), Refusal::FileLength)?;
    let m = u32_at(bytes, 0);
    let d = u32_at(bytes, 4);
    check_sizes(bytes.len(), m, d)?;
    Ok(Header {
        m: m as usize,
        d: d as usize,
    })
}

// ---- the fit

// The automatic fit of leaves: k 1 to 4, 100 rounds, seed 7, Free. The two slices come singly, as the entry takes them.
fn fit_leaves(
    weights: &[f64],
    coords: &[f64],
    d: usize,
    labels: &mut [u32],
) -> Result<Chosen, NotChosen>
    ensures fact { ◌≡◌ {A = FileFit} (record { answer = result; labels = labels.new })
        (file_fit_by (Ok tt) (record { d = d; weights = weights.now; coords = coords.now })
        labels.old) }
    ensures leaves_keep_best { LeavesKeepBest (record { d = d; weights = weights.now; coords = coords.now })
        labels.old result }
{
    let mut responsibilities = [0.0; LEAVES * GROUPS];
    let mut group_weights = [0.0; GROUPS];
    let mut directions = [0.0; GROUPS * COORDINATES];
    let mut concentrations = [0.0; GROUPS];
    let mut logw = [0.0; GROUPS];
    let mut work = [0.0; 2 * LEAVES * GROUPS + 4 * GROUPS * COORDINATES + 8 * LEAVES + 16 * GROUPS];
    let mut work_u32 = [0u32; 2 * LEAVES + 2 * GROUPS];
    auto::movmf_auto(
        weights,
        coords,
        d,
        1,
        GROUPS,
        100,
        7,
        labels,
        &mut responsibilities,
        &mut group_weights,
        &mut directions,
        &mut concentrations,
        &mut logw,
        &mut work,
        &mut work_u32,
    )
}

// The automatic fit of the leaves that a file with this header holds, read into weights and coords.
fn fit_sized(
    bytes: &[u8],
    h: Header,
    weights: &mut [f64],
    coords: &mut [f64],
    labels: &mut [u32],
) -> Result<Chosen, NotChosen>
    requires { Sized (length bytes.now) (length weights.old) (length coords.old) h.m h.d }
    ensures fact { ◌≡◌ {A = FileFit} (record { answer = result; labels = labels.new })
        (file_fit_by (Ok tt) (leaves_of bytes.now h.m h.d) labels.old) }
    ensures leaves_keep_best { LeavesKeepBest (leaves_of bytes.now h.m h.d) labels.old result }
{
    let n = h.m * h.d;
    load(&mut weights[..h.m], bytes, 8);
    load(&mut coords[..n], bytes, 8 + 8 * h.m);
    fit_leaves(&weights[..h.m], &coords[..n], h.d, labels)
}

// The automatic fit of a leaf file; the labels are as found where it is refused.
pub fn fit_file(bytes: &[u8], labels: &mut [u32]) -> Result<Chosen, NotChosen>
    ensures fact { ◌≡◌ {A = FileFit} (record { answer = result; labels = labels.new })
        (file_fit bytes.now labels.old) }
    ensures leaves_keep_best { file_refusal bytes.now ≡ Ok tt → LeavesKeepBest (leaves_in bytes.now)
        labels.old result }
{
    let h = header_of(bytes)?;
    let mut weights = [0.0; LEAVES];
    let mut coords = [0.0; LEAVES * COORDINATES];
    fit_sized(bytes, h, &mut weights, &mut coords, labels)
}

// ---- the listing's text

// A text on its way: it stands at the start of `out`, and `at` is the place after it. No String, since the station has
// no heap; and no `write!`, which promises what it writes only where it answers Ok, and not that it does where there is
// room, so that it would not show which bytes come out.
#[derive(Drop)]
struct Text<'a> {
    out: &'a mut [u8],
    at: usize,
}

impl Text<'_> {
    // A word.
    fn word(&mut self, word: &[u8])
        requires { self.old.at + length word.now ≤ length self.old.out.now }
        ensures { Grown word.now self.old self.new }
    {
        let end = self.at + word.len();
        self.out[self.at..end].copy_from_slice(word);
        self.at = end;
    }

    // A number in decimal.
    fn decimal(&mut self, n: u64)
        requires { self.old.at + 20 ≤ length self.old.out.now }
        ensures grown { Grown (decimal n) self.old self.new }
        ensures upper_bound { self.new.at ≤ self.old.at + 20 }
    {
        let mut digits = itoa::Buffer::new();
        self.word(digits.format(n).as_bytes());
    }

    // A word and a number as a line.
    fn number(&mut self, word: &[u8], n: u64)
        requires { self.old.at + length word.now + 21 ≤ length self.old.out.now }
        ensures grown { Grown (number_line word.now n) self.old self.new }
        ensures upper_bound { self.new.at ≤ self.old.at + length word.now + 21 }
    {
        self.word(word);
        self.decimal(n);
        self.word(b"\n");
    }

    // The line of shop i.
    fn shop(&mut self, i: usize, label: u32)
        requires { self.old.at + 42 ≤ length self.old.out.now }
        ensures grown { Grown (shop_line i label) self.old self.new }
        ensures upper_bound { self.new.at ≤ self.old.at + 42 }
    {
        self.decimal(i as u64);
        self.word(b" ");
        self.decimal(label as u64);
        self.word(b"\n");
    }

    // A line for each shop.
    fn shops(&mut self, labels: &[u32])
        requires { self.old.at + 42 * length labels.now ≤ length self.old.out.now }
        ensures { Grown (shop_lines labels.now (length labels.now)) self.old self.new }
    {
        for (i, label) in labels.iter().enumerate() {
            self.shop(i, *label);
        }
    }

    // Chosen k, made, saved and the shops.
    fn groups(&mut self, k: usize, counts: counts::Counts, labels: &[u32])
        requires { self.old.at + 81 + 42 * length labels.now ≤ length self.old.out.now }
        ensures { Grown (groups_text k counts labels.now) self.old self.new }
    {
        self.number(b"groups ", k as u64);
        self.number(b"made ", counts.made);
        self.number(b"saved ", counts.saved);
        self.shops(labels);
    }

    // What an answer comes to, with the labels of the shops; of a refusal its number alone.
    fn answer(&mut self, r: Result<Chosen, NotChosen>, labels: &[u32])
        requires { self.old.at + 81 + 42 * length labels.now ≤ length self.old.out.now }
        ensures { Grown (text_of r labels.now) self.old self.new }
    {
        match r {
            Ok(c) => self.groups(c.k, c.counts, labels),
            Err(e) => self.number(b"refused ", u32::from(e) as u64),
        }
    }
}

// How many leaves a file says that it holds; 0 and no None where it is refused, since a refusal lists no shop.
fn shops(bytes: &[u8]) -> usize
    ensures { (result ≤ 64) × (file_refusal bytes.now ≡ Ok tt → result ≡ whole_at bytes.now 0 4) }
{
    match header_of(bytes) {
        Ok(h) => h.m,
        Err(_) => 0,
    }
}

// Puts the listing of a leaf file at the start of out, and answers how many bytes it has. The rest of out is as found:
// the answer is a length and no part of out, so that a caller may look at what stands behind the listing too.
pub fn list_file(bytes: &[u8], out: &mut [u8; 4096]) -> usize
    ensures value { (result ≡ length (listing bytes.now))
        × (out.new ≡ listing bytes.now ++ drop result out.old) }
    ensures upper_bound { result ≤ length out.new }
{
    let mut labels = [0u32; LEAVES];
    let r = fit_file(bytes, &mut labels);
    let m = shops(bytes);
    let mut text = Text { out, at: 0 };
    text.answer(r, &labels[..m]);
    text.at
}
