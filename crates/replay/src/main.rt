// Runs the oracle's list of cases (standard input; oracle/README.md says how it is made) and prints, for each kind, how
// many cases agreed, bit for bit and all NaN as one. A word of the list is 16 hexadecimal digits and one byte after
// them. A block is its kind, the numbers of words in and out of a case, the number of cases, and the cases; kind 0 ends
// the list. The list is read case by case.
#![tactic(auto)]

mod answers;
mod case;
mod files;
mod fits;
mod kind;
mod numbers;
mod outputs;
mod vectors;

use case::Case;
use kind::Kind;
use outputs::Form;
use std::io::Read;
use std::{fmt, io};
use words::{plus, word};

// Whether a case agrees.
fn agrees(kind: Kind, case: Case) -> bool {
    match kind {
        Kind::Arithmetic(operation) => numbers::arithmetic_agrees(operation, case),
        Kind::Draw => numbers::draw_agrees(case),
        Kind::Draws => numbers::draws_agree(case),
        Kind::Product => numbers::product_agrees(case),
        Kind::RestartSeed => numbers::restart_seed_agrees(case),
        Kind::Dot => vectors::dot_agrees(case),
        Kind::Norm => vectors::norm_agrees(case),
        Kind::Unit => vectors::unit_agrees(case),
        Kind::Argmax => vectors::argmax_agrees(case),
        Kind::Argmin => vectors::argmin_agrees(case),
        Kind::Pick => vectors::pick_agrees(case),
        Kind::LnGamma => numbers::ln_gamma_agrees(case),
        Kind::LnGammaHalf => numbers::ln_gamma_half_agrees(case),
        Kind::LogVmfNorm => numbers::log_vmf_norm_agrees(case),
        Kind::EstimateKappa => numbers::estimate_kappa_agrees(case),
        Kind::KappaMax => numbers::kappa_max_agrees(case),
        Kind::Spherical => fits::spherical_agrees(case),
        Kind::Mixture => fits::mixture_agrees(case, Form::Words),
        Kind::MixtureDigests => fits::mixture_agrees(case, Form::Digest),
        Kind::Auto => fits::auto_agrees(case),
        Kind::Listing => files::listing_agrees(case),
        Kind::Unknown(_) => false,
    }
}

// The part of the list that is being read: its bytes, and its words.
#[derive(Drop)]
struct Page {
    bytes: Vec<u8>,
    words: [u64; 4096],
}

impl Page {
    ghost use Rattle.std.specs.Prelude.{◌≡◌, ◌≤◌, IfOk, OnErr};
    ghost use Rattle.std.specs.Borrow.{sem};
    ghost use Rattle.words.specs.Words.{Counted};
    ghost use Rattle.replay.specs.Pages.{HandsWords};

    // Reads words until `part` ends, and answers how many. An error leaves the words as they were.
    fn fill(&mut self, mut part: impl Read + Drop) -> io::Result<usize>
        ensures within { IfOk result (λ n. n ≤ 4096) }
        ensures counted { IfOk result (λ n. Counted n self.new.words) }
        ensures err { OnErr result (self.new.words ≡ self.old.words) }
    {
        let Page { bytes, words } = self;
        bytes.clear();
        part.read_to_end(bytes)?;
        Ok(words::read(words, bytes))
    }

    // Reads words until `part` ends.
    fn read_part(&mut self, part: impl Read + Drop) -> io::Result<&[u64]>
        ensures* { sem 𝓛 (HandsWords self.entry result) }
    {
        let n = self.fill(part)?;
        Ok(&self.words[..n])
    }

    // Reads that many words, or as many as there are; no more than 65,536 bytes hold, and a page.
    fn read(&mut self, rt: &impl Input, count: usize) -> io::Result<&[u64]>
        ensures* { sem 𝓛 (HandsWords self.entry result) }
    {
        let bytes = (count % 65536 * 17).min(65536);
        self.read_part(rt.reader().take(bytes as u64))
    }
}

// How many cases of a kind agreed so far, and of how many.
#[derive(Clone, Copy)]
struct Tally {
    kind: Kind,
    agreed: usize,
    count: usize,
}

impl fmt::Display for Tally {
    fn fmt<W: fmt::Write>(&self, f: &mut fmt::Formatter<W>) -> fmt::Result {
        let kind = self.kind;
        let agreed = self.agreed;
        let count = self.count;
        write!(f, "{kind}: {agreed} of {count} agree")
    }
}

fn print_tally(rt: &impl Print, tally: Option<Tally>) -> io::Result<()> {
    match tally {
        Some(t) => println!(rt; "{t}"),
        None => Ok(()),
    }
}

// The tally for a block of this kind: the same one, or a new one, the old one printed.
fn tally_for(rt: &impl Print, kind: Kind, old: Option<Tally>) -> io::Result<Tally> {
    if let Some(t) = old {
        if t.kind == kind {
            return Ok(t);
        }
    }
    print_tally(rt, old)?;
    Ok(Tally {
        kind,
        agreed: 0,
        count: 0,
    })
}

// A block's kind, the numbers of words in and out of a case, and the number of cases.
#[derive(Clone, Copy)]
struct Block {
    kind: Kind,
    ins: usize,
    outs: usize,
    count: usize,
}

// The block that four words say; kind 0 is none.
fn block_of(words: &[u64]) -> Option<Block> {
    if words.len() != 4 || word(words, 0) == 0 {
        return None;
    }
    Some(Block {
        kind: Kind::from(word(words, 0)),
        ins: word(words, 1) as usize,
        outs: word(words, 2) as usize,
        count: word(words, 3) as usize,
    })
}

// The next block, if there is one.
fn read_block(rt: &impl Input, page: &mut Page) -> io::Result<Option<Block>> {
    Ok(block_of(page.read(rt, 4)?))
}

// Whether the next case agrees.
fn run_case(rt: &impl Input, page: &mut Page, b: Block) -> io::Result<bool> {
    let width = plus(b.ins, b.outs);
    let words = page.read(rt, width)?;
    let case = Case { words, ins: b.ins };
    Ok(words.len() == width && agrees(b.kind, case))
}

// How many of a block's cases agree.
fn run_cases(rt: &impl Input, page: &mut Page, b: Block) -> io::Result<usize> {
    let mut agreed = 0;
    for _ in 0..b.count {
        let same = run_case(rt, page, b)?;
        agreed = plus(agreed, usize::from(same));
    }
    Ok(agreed)
}

// Runs a block after those of the tally.
fn run_block(
    rt: &(impl Input + Print),
    page: &mut Page,
    b: Block,
    old: Option<Tally>,
) -> io::Result<Tally> {
    let t = tally_for(rt, b.kind, old)?;
    let agreed = run_cases(rt, page, b)?;
    Ok(Tally {
        kind: b.kind,
        agreed: plus(t.agreed, agreed),
        count: plus(t.count, b.count),
    })
}

// Runs the list's blocks; no more than 4096, so that it ends whatever the list says.
fn run_list(rt: &(impl Input + Print), page: &mut Page) -> io::Result<()> {
    let mut tally = None;
    for _ in 0..4096 {
        match read_block(rt, page)? {
            Some(b) => tally = Some(run_block(rt, page, b, tally)?),
            None => return print_tally(rt, tally),
        }
    }
    Ok(())
}

fn main(rt: HostRuntime) -> io::Result<()> {
    let mut page = Page {
        bytes: Vec::new(rt.alloc()),
        words: [0; 4096],
    };
    run_list(&rt, &mut page)
}
