// Reads dumps on standard input, each ended by a line `Z`, and writes each one's listing and a line `Z`. The input may have any length:
// it is read in pieces, and of a dump that is too long to be acceptable the first 81,920 bytes are kept, which hold its first bad line.
#![tactic(auto)]

use std::io::{self, Read};

// The line that the next byte stands in: at its start, after a `Z` that is all of it so far, or another.
#[derive(Clone, Copy, PartialEq, Eq)]
enum Line {
    Start,
    Z,
    Other,
}

impl Line {
    // What a byte makes of the line.
    fn after(self, b: u8) -> Line {
        match (self, b) {
            (_, b'\n') => Line::Start,
            (Line::Start, b'Z') => Line::Z,
            _ => Line::Other,
        }
    }
}

// The dump so far: its first bytes, how many, and where its last line began.
#[derive(Drop)]
struct Kept {
    text: [u8; 81920],
    count: usize,
    start: usize,
    line: Line,
}

impl Kept {
    fn none() -> Kept {
        Kept {
            text: [0; 81920],
            count: 0,
            start: 0,
            line: Line::Start,
        }
    }

    // Another byte of the dump.
    fn keep(&mut self, b: u8) {
        if self.line == Line::Start {
            self.start = self.count;
        }
        if let Some(x) = self.text.get_mut(self.count) {
            *x = b;
            self.count += 1;
        }
        self.line = self.line.after(b);
    }

    // The dump ended: its listing. What is next is another.
    fn list(&mut self, rt: &impl Print, n: usize, out: &mut [u8]) -> io::Result<()> {
        let Some(text) = self.text.get(..n) else {
            return Ok(());
        };
        let end = lister::list(text, 1, out);
        rt.write_all(out.get(..end).unwrap_or(&[]))?;
        rt.write_all(b"Z\n")?;
        self.count = 0;
        self.start = 0;
        self.line = Line::Start;
        Ok(())
    }

    // One byte of the input: the last of a dump, or one to keep.
    fn take(&mut self, rt: &impl Print, b: u8, out: &mut [u8]) -> io::Result<()> {
        if self.line == Line::Z && b == b'\n' {
            return self.list(rt, self.start, out);
        }
        self.keep(b);
        Ok(())
    }

    // The input ends: a last line `Z` may lack its newline, and a last dump its `Z`.
    fn finish(&mut self, rt: &impl Print, out: &mut [u8]) -> io::Result<()> {
        match self.line {
            Line::Z => self.list(rt, self.start, out),
            Line::Start if self.count == 0 => Ok(()),
            _ => self.list(rt, self.count, out),
        }
    }
}

// A piece that is not full is the input's last, and no input has 2^63 pieces.
fn list_all(rt: &impl Print, input: &mut impl Read, out: &mut [u8]) -> io::Result<()> {
    let mut piece = [0u8; 65536];
    let mut kept = Kept::none();
    for _ in 0..9223372036854775808u64 {
        let n = input::read_full(input, &mut piece)?;
        for b in &piece[..n] {
            kept.take(rt, *b, out)?;
        }
        if n < piece.len() {
            break;
        }
    }
    kept.finish(rt, out)
}

fn main(rt: HostRuntime) -> io::Result<()> {
    let mut out = [0u8; 327680];
    list_all(&rt, &mut rt.stdin(), &mut out)
}
