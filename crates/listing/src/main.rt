// The listing program (document 01, 'Leaf file and listing program'): reads a leaf file from standard input and prints
// which shop is in which group.
#![tactic(auto)]

use std::io;
use std::io::Read;

fn main(rt: HostRuntime) -> io::Result<()> {
    let mut bytes = Vec::new(rt.alloc());
    // One byte more than the longest leaf file: what is longer still is refused alike.
    rt.reader()
        .take(leaf_file::LONGEST as u64 + 1)
        .read_to_end(&mut bytes)?;
    let mut text = [0u8; 4096];
    let end = leaf_file::list_file(&bytes, &mut text);
    rt.write_all(&text[..end])
}
