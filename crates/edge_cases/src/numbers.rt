// Examples of arithmetic, of the generator and of the table of ln_gamma.
ghost use Rattle.std.specs.Prelude.{◌≡◌};
ghost use Rattle.edge_cases.specs.Five.{five_of};

use std::io;
use words::{Operation, number};

// Words 1 to 3 are arguments, and word 4 is the value, all NaN as one.
pub(crate) fn gives(operation: Operation, line: &[u64]) -> bool {
    let v = words::arithmetic(operation, number(line, 1), number(line, 2), number(line, 3));
    words::is_number(v, line, 4)
}

// Word 1 is the argument, and the value lies between words 2 and 3.
pub(crate) fn between(operation: Operation, line: &[u64]) -> bool {
    let y = number(line, 2);
    let z = number(line, 3);
    let v = words::arithmetic(operation, number(line, 1), y, z);
    y < v && v < z
}

// The first five numbers of a seed: one generator is made here and lent for each, and its state moves on in place.
fn five_lent(seed: u64) -> [u64; 5]
    ensures { result ≡ five_of seed }
{
    let mut g = rng::SplitMix64::new(seed);
    let a = rng::next_u64(&mut g);
    let b = rng::next_u64(&mut g);
    let c = rng::next_u64(&mut g);
    let d = rng::next_u64(&mut g);
    let e = rng::next_u64(&mut g);
    [a, b, c, d, e]
}

// Prints the first five numbers of a seed.
pub(crate) fn print_draws(rt: &impl Print, seed: u64) -> io::Result<()> {
    for n in five_lent(seed) {
        println!(rt; "{n}")?;
    }
    Ok(())
}

// Whether the table's ln_gamma of d / 2 has these bits.
pub(crate) fn entry_holds(d: usize, bits: u64) -> bool {
    if d < 1 || 256 < d {
        return false;
    }
    float::bits_of(gamma_table::ln_gamma_half(d)) == bits
}
