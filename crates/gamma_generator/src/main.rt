// The generator of the table of ln_gamma (document 02, #105): prints ln_gamma(d / 2) for d = 1 to 256, one a line, as
// the 16 hexadecimal digits of the f64's bits. table.py beside this folder makes the table's source of what it prints.
#![tactic(auto)]

ghost use Rattle.std.specs.Prelude.{◌≡◌};
ghost use Rattle.std.specs.Float.{binary64};
ghost use Rattle.std.specs.Float.Ieee.{to_bits};
ghost use Rattle.gamma.specs.Gamma.{ln_gamma_half};

use std::io;

// The bits of ln_gamma(d / 2).
fn bits_at(d: u32) -> u64
    ensures { result ≡ to_bits binary64 (ln_gamma_half d) }
{
    float::bits_of(gamma::ln_gamma(d as f64 / 2.0))
}

fn print_line(rt: &impl Print, bits: u64) -> io::Result<()> {
    println!(rt; "{bits:016x}")
}

fn main(rt: HostRuntime) -> io::Result<()> {
    for d in 1..257 {
        print_line(&rt, bits_at(d))?;
    }
    Ok(())
}
