// Lists the two leaf files that its arguments name, each behind its name. The gate runs it on two villages that differ
// in one bit: in the first a shop is equally like two groups, in the second it is nearer to one of them.
#![tactic(auto)]

use std::io::Read;
use std::rt::Files;
use std::{env, fs, io};

// The listing of an open file, as the listing program's main has it: a library for both would hold these lines alone,
// and leaf_file neither prints nor has a heap.
fn list_open(rt: &(impl Print + Alloc), file: impl Read + Drop) -> io::Result<()> {
    let mut bytes = Vec::new(rt.alloc());
    // One byte more than the longest leaf file: what is longer still is refused alike.
    file.take(leaf_file::LONGEST as u64 + 1)
        .read_to_end(&mut bytes)?;
    let mut text = [0u8; 4096];
    let end = leaf_file::list_file(&bytes, &mut text);
    rt.write_all(&text[..end])
}

// The name of a file, and its listing, or on standard error why it can't be opened.
fn list_named(rt: &(impl Files + Print + Eprint + Alloc), path: &str) -> io::Result<()> {
    println!(rt; "{path}:")?;
    match fs::open(rt, path) {
        Ok(file) => list_open(rt, file),
        Err(e) => eprintln!(rt; "{path}: {e}"),
    }
}

// An argument that is missing is the empty name.
fn main(rt: HostRuntime) -> io::Result<()> {
    let mut paths = env::args(&rt)?.skip(1);
    for _ in 0..2 {
        match paths.next() {
            Some(path) => list_named(&rt, path.as_str())?,
            None => list_named(&rt, "")?,
        }
    }
    Ok(())
}
