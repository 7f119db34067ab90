// Cases of leaf files.
use super::case::Case;
use words::plus;

// The bytes that word `at` counts, packed in the words after it.
fn packed_at(case: Case, at: usize) -> words::Bytes {
    words::Bytes {
        count: case.word(at) as usize,
        from: plus(at, 1),
        layout: words::Layout::Packed,
    }
}

// Kind 25, a leaf file's listing: the number of bytes and the bytes, in `ins` words; the number of the text's bytes and
// the text.
pub(crate) fn listing_agrees(case: Case) -> bool {
    let mut room = [0u8; 16384];
    let n = words::load_bytes(&mut room, case.words, packed_at(case, 0));
    let file = &room[..n];
    n as u64 == case.word(0)
        && words::fills(case.words, packed_at(case, case.ins), |out| {
            leaf_file::list_file(file, out)
        })
}
