// Document 01's edge examples, run: a line for each, `yes` where the answer is as it says and `NO` where it is not; and
// SplitMix64's published outputs; and the limits of spherical k-means, of the mixture fit and of the automatic fit; and
// the refusals and the listing of a leaf file; and entries of the table of ln_gamma. The examples are the lines of
// standard input. A line has its words, hexadecimal numbers with a space after each, of which word 0 is the kind, and
// behind a bar the example's name. An f64 is its pattern. A list in a line is its length, how many of its elements are
// written, and these; the last of them stands for the rest.
#![tactic(auto)]

mod files;
mod fits;
mod kind;
mod lists;
mod numbers;

use kind::Kind;
use std::io;
use std::io::Read;
use words::word;

// Whether a line's example holds; of the numbers of a seed, that they were printed.
fn holds(kind: Kind, line: &[u64]) -> bool {
    match kind {
        Kind::Draws => true,
        Kind::Gives(operation) => numbers::gives(operation, line),
        Kind::Between(operation) => numbers::between(operation, line),
        Kind::RestartSeed => { rng::restart_seed(word(line, 1), word(line, 2)) == word(line, 4) }
        Kind::Clustering => fits::holds(line, fits::clustering_holds),
        Kind::Mixture => fits::holds(line, fits::fit_answer_holds),
        Kind::Choice => fits::holds(line, fits::choice_holds),
        Kind::FileFit => files::holds(line, files::file_fit_is),
        Kind::Listing => files::holds(line, files::listing_is),
        Kind::Entry => numbers::entry_holds(word(line, 1) as usize, word(line, 4)),
    }
}

// Prints what stands behind the bar, which is at that place.
fn print_name(rt: &impl Print, text: &[u8], bar: usize) -> io::Result<()> {
    if bar < text.len() {
        rt.write_all(&text[bar + 1..])?;
    }
    Ok(())
}

// Prints whether a line's example holds, or in kind 0 the numbers of the seed in word 1.
fn run_words(rt: &impl Print, line: &[u64]) -> io::Result<()> {
    let kind = Kind::from(word(line, 0));
    if kind == Kind::Draws {
        println!(rt; ":")?;
        numbers::print_draws(rt, word(line, 1))
    } else if holds(kind, line) {
        println!(rt; ": yes")
    } else {
        println!(rt; ": NO")
    }
}

// A line: its words, and its name.
fn run_line(rt: &impl Print, text: &[u8]) -> io::Result<()> {
    let bar = words::place_of(text, 0, 124);
    let mut line = [0u64; 256];
    let n = words::read(&mut line, &text[..bar]);
    print_name(rt, text, bar)?;
    run_words(rt, &line[..n])
}

// The loop goes from line end to line end and counts no index: split would give one more, empty line at the end.
fn run_list(rt: &impl Print, text: &[u8]) -> io::Result<()> {
    let mut from = 0;
    while from < text.len() {
        let end = words::place_of(text, from, 10);
        run_line(rt, &text[from..end])?;
        if end == text.len() {
            return Ok(());
        }
        from = end + 1;
    }
    Ok(())
}

fn main(rt: HostRuntime) -> io::Result<()> {
    let mut text = Vec::new(rt.alloc());
    rt.reader().read_to_end(&mut text)?;
    run_list(&rt, &text)
}
