// The listing program: reads a dump on standard input and writes its listing. An acceptable dump has at most 72,193 bytes, and the
// first 72,194 of a longer text hold its first bad line; no listing has more than 297,579.
#![tactic(auto)]

use std::io;

fn main(rt: HostRuntime) -> io::Result<()> {
    let mut text = [0u8; 81920];
    let n = input::read_full(&mut rt.stdin(), &mut text)?;
    let mut out = [0u8; 327680];
    let end = lister::list(&text[..n], 1, &mut out);
    rt.write_all(out.get(..end).unwrap_or(&[]))
}
