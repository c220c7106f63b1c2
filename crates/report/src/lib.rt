// The lines of the program `room`, written into a lent buffer as those of the listing are.
#![tactic(auto)]

ghost use Rattle.listing.specs.Wrote.{Wrote};
ghost use Rattle.report.specs.Lines.{block_line, bytes_text, data_line, erase_line, label_line, line_of, number_line, page_line, step_head, step_line, write_line};

use meaning::{Block, Number, Step};

// ---- one number, or a page

// A letter and a number.
fn put_line(buf: &mut [u8], at: usize, letter: u8, n: u64) -> usize
    ensures { Wrote buf.old at (line_of letter n) buf.new result }
{
    let a = listing::put_byte(buf, at, letter);
    let b = listing::put_field(buf, a, n);
    listing::put_byte(buf, b, text::NEWLINE)
}

/// K: a block on the erase list.
pub fn put_block(buf: &mut [u8], at: usize, block: Block) -> usize
    ensures { Wrote buf.old at (block_line block) buf.new result }
{
    put_line(buf, at, b'K', block.0 as u64)
}

/// R: the data block that a reclaim is of.
pub fn put_number(buf: &mut [u8], at: usize, n: Number) -> usize
    ensures { Wrote buf.old at (number_line n) buf.new result }
{
    put_line(buf, at, b'R', n.0 as u64)
}

/// U: a used page of a data block.
pub fn put_page(buf: &mut [u8], at: usize, n: Number, page: usize) -> usize
    ensures { Wrote buf.old at (page_line n page) buf.new result }
{
    let a = listing::put_byte(buf, at, b'U');
    let b = listing::put_field(buf, a, n.0 as u64);
    let c = listing::put_field(buf, b, page as u64);
    listing::put_byte(buf, c, text::NEWLINE)
}

// ---- a step

fn put_step_head(buf: &mut [u8], at: usize, kind: u8) -> usize
    ensures { Wrote buf.old at (step_head kind) buf.new result }
{
    let a = listing::put_byte(buf, at, b'S');
    let b = listing::put_byte(buf, a, text::TAB);
    listing::put_byte(buf, b, kind)
}

fn put_erase(buf: &mut [u8], at: usize, block: Block) -> usize
    ensures { Wrote buf.old at (erase_line block) buf.new result }
{
    let a = put_step_head(buf, at, b'e');
    let b = listing::put_field(buf, a, block.0 as u64);
    listing::put_byte(buf, b, text::NEWLINE)
}

fn put_page_write(buf: &mut [u8], at: usize, from: Block, to: Block, page: usize) -> usize
    ensures { Wrote buf.old at (write_line from to page) buf.new result }
{
    let a = put_step_head(buf, at, b'w');
    let b = listing::put_field(buf, a, from.0 as u64);
    let c = listing::put_field(buf, b, to.0 as u64);
    let d = listing::put_field(buf, c, page as u64);
    listing::put_byte(buf, d, text::NEWLINE)
}

fn put_label_write(buf: &mut [u8], at: usize, block: Block, tag: u8, path: u64) -> usize
    ensures { Wrote buf.old at (label_line block tag path) buf.new result }
{
    let a = put_step_head(buf, at, b'l');
    let b = listing::put_field(buf, a, block.0 as u64);
    let c = listing::put_byte(buf, b, text::TAB);
    let d = listing::put_hex(buf, c, tag);
    let e = listing::put_field(buf, d, path);
    listing::put_byte(buf, e, text::NEWLINE)
}

/// S: a step of a settle or a reclaim.
pub fn put_step(buf: &mut [u8], at: usize, s: Step) -> usize
    ensures { Wrote buf.old at (step_line s) buf.new result }
{
    match s {
        Step::Erase(b) => put_erase(buf, at, b),
        Step::PageWrite { from, to, page } => put_page_write(buf, at, from, to, page),
        Step::LabelWrite { block, tag, path } => put_label_write(buf, at, block, tag, path),
    }
}

// ---- a file's bytes

fn put_bytes(buf: &mut [u8], at: usize, bytes: &[u8]) -> usize
    ensures { Wrote buf.old at (bytes_text bytes.now) buf.new result }
{
    let mut to = at;
    for b in bytes {
        to = listing::put_hex(buf, to, *b);
    }
    to
}

/// D: a file's bytes from an offset on, which the caller lends.
pub fn put_data(buf: &mut [u8], at: usize, path: u32, offset: u64, bytes: &[u8]) -> usize
    ensures { Wrote buf.old at (data_line path offset bytes.now) buf.new result }
{
    let a = listing::put_byte(buf, at, b'D');
    let b = listing::put_field(buf, a, path as u64);
    let c = listing::put_field(buf, b, offset);
    let d = listing::put_byte(buf, c, text::TAB);
    let e = put_bytes(buf, d, bytes);
    listing::put_byte(buf, e, text::NEWLINE)
}
