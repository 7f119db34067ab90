// Examples of leaf files: their refusals and their listings. The file is the list at word 4.
use super::lists;

// The listing of a file is the list after it.
pub(crate) fn listing_is(file: &[u8], line: &[u64]) -> bool {
    let list = lists::bytes_at(line, lists::after(line, 4));
    words::fills(line, list, |out| leaf_file::list_file(file, out))
}

// The fit of a file is as words 1 to 3 say.
pub(crate) fn file_fit_is(file: &[u8], line: &[u64]) -> bool {
    let mut labels = [9u32; 64];
    let r = leaf_file::fit_file(file, &mut labels);
    super::fits::chosen_is(r, super::fits::untouched(&labels, 9), line)
}

// Whether the test holds of the file.
pub(crate) fn holds<F: FnOnce(&[u8], &[u64]) -> bool>(line: &[u64], test: F) -> bool
    requires { F.IsAlwaysCallable test }
{
    let mut file = [0u8; 9000];
    let n = words::load_bytes(&mut file, line, lists::bytes_at(line, 4));
    test(&file[..n], line)
}
