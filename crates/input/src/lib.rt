// The input, read into a slice that is lent: the programs read no other way.
#![tactic(auto)]

ghost use Rattle.std.specs.Prelude.{◌≤◌, length, IfOk};

use std::io::{self, Read};

/// Reads until the slice is full or the input ends, and says how many bytes it holds then.
pub fn read_full(input: &mut impl Read, slice: &mut [u8]) -> io::Result<usize>
    ensures { IfOk result (λ n. n ≤ length slice.new) }
{
    // A `while`: the input says how many bytes a turn gives.
    // No counted loop: a read says how many bytes it got.
    let mut n: usize = 0;
    while n < slice.len() {
        let got = input.read(&mut slice[n..])?;
        if got == 0 {
            return Ok(n);
        }
        n += got;
    }
    Ok(n)
}
