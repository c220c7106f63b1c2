// The listing's lines, written into a lent buffer. Each function answers with the place past what it wrote. What has no room is left
// out, and the place then stays at the end, so a caller looks once, after the last: a place below the end says that all stands.
// The buffer and the place are two parameters: of what a struct that holds a `&mut` leaves, nothing is tied to the slice lent (tried).
#![tactic(auto)]

ghost use Rattle.std.specs.Prelude.{◌≡◌, [], ◌∷◌, ◌<◌};
ghost use Rattle.listing.specs.Wrote.{Wrote};
ghost use Rattle.listing.specs.Lines.{decimal, digits_of, escaped, escapes, extent_line, field, file_line, hex_sign, hex_text, insertion_text, name_text, percent, record_text, refusal_line, run_line, total_line};

use meaning::{Address, Extent, Record, Refusal};

// ---- numbers

pub fn put_byte(buf: &mut [u8], at: usize, b: u8) -> usize
    ensures { Wrote buf.old at (b ∷ []) buf.new result }
{
    if at < buf.len() {
        buf[at] = b;
        at + 1
    } else {
        at
    }
}

/// The higher digits first, by calling itself.
fn put_digits(buf: &mut [u8], at: usize, n: u64, left: u8) -> usize
    ensures { Wrote buf.old at (digits_of left n) buf.new result }
{
    if left == 0 {
        return at;
    }
    if n < 10 {
        return put_byte(buf, at, b'0' + n as u8);
    }
    let i = put_digits(buf, at, n / 10, left - 1);
    put_byte(buf, i, b'0' + (n % 10) as u8)
}

#[tactic(auto, unfolding(crate::specs::Lines::decimal))]
pub fn put_number(buf: &mut [u8], at: usize, n: u64) -> usize
    ensures { Wrote buf.old at (decimal n) buf.new result }
{
    put_digits(buf, at, n, 20)
}

/// A tab and a number.
pub fn put_field(buf: &mut [u8], at: usize, n: u64) -> usize
    ensures { Wrote buf.old at (field n) buf.new result }
{
    let i = put_byte(buf, at, text::TAB);
    put_number(buf, i, n)
}

// ---- names

#[tactic(auto, unfolding(base::specs::Choice::if_less, base::specs::Choice::if_true, crate::specs::Lines::hex_sign))]
fn hex_sign(d: u8) -> u8
    requires { d < 16 }
    ensures { result ≡ hex_sign d }
{
    if d < 10 { b'0' + d } else { b'a' - 10 + d }
}

/// A byte as two hex digits.
pub fn put_hex(buf: &mut [u8], at: usize, b: u8) -> usize
    ensures { Wrote buf.old at (hex_text b) buf.new result }
{
    let h = hex_sign(b / 16);
    let l = hex_sign(b % 16);
    let i = put_byte(buf, at, h);
    put_byte(buf, i, l)
}

fn put_percent(buf: &mut [u8], at: usize, b: u8) -> usize
    ensures { Wrote buf.old at (percent b) buf.new result }
{
    let i = put_byte(buf, at, b'%');
    put_hex(buf, i, b)
}

#[tactic(auto, unfolding(base::specs::Choice::if_less, base::specs::Choice::if_eq, base::specs::Choice::if_true, crate::specs::Lines::escaped))]
fn put_escaped(buf: &mut [u8], at: usize, b: u8) -> usize
    ensures { Wrote buf.old at (escaped b) buf.new result }
{
    if b < 33 || 126 < b || b == b'%' {
        put_percent(buf, at, b)
    } else {
        put_byte(buf, at, b)
    }
}

fn put_escapes(buf: &mut [u8], at: usize, name: &[u8]) -> usize
    ensures { Wrote buf.old at (escapes name.now) buf.new result }
{
    let mut to = at;
    for b in name {
        to = put_escaped(buf, to, *b);
    }
    to
}

#[tactic(auto, unfolding(base::specs::Choice::if_eq, base::specs::Choice::if_true, crate::specs::Lines::name_text))]
pub fn put_name(buf: &mut [u8], at: usize, name: &[u8]) -> usize
    ensures { Wrote buf.old at (name_text name.now) buf.new result }
{
    if name.is_empty() {
        put_byte(buf, at, b'/')
    } else {
        put_escapes(buf, at, name)
    }
}

// ---- the lines

/// The logical address of a page, or none.
fn put_insertion(buf: &mut [u8], at: usize, p: Option<Address>) -> usize
    ensures { Wrote buf.old at (insertion_text p) buf.new result }
{
    match p {
        Some(a) => put_field(buf, at, a.0),
        None => {
            let i = put_byte(buf, at, text::TAB);
            put_byte(buf, i, b'-')
        }
    }
}

/// T: how many records and extents there are, how many messages were applied and ignored, and the insertion point.
pub fn put_total(
    buf: &mut [u8],
    at: usize,
    records: u64,
    extents: u64,
    applied: u64,
    ignored: u64,
    insertion: Option<Address>,
) -> usize
    ensures { Wrote buf.old at (total_line records extents applied ignored insertion) buf.new result }
{
    let a = put_byte(buf, at, b'T');
    let b = put_field(buf, a, records);
    let c = put_field(buf, b, extents);
    let d = put_field(buf, c, applied);
    let e = put_field(buf, d, ignored);
    let f = put_insertion(buf, e, insertion);
    put_byte(buf, f, text::NEWLINE)
}

fn put_record(buf: &mut [u8], at: usize, f: Record) -> usize
    ensures { Wrote buf.old at (record_text f) buf.new result }
{
    let a = put_byte(buf, at, b'F');
    let b = put_field(buf, a, f.path as u64);
    let c = put_field(buf, b, f.parent as u64);
    let d = put_field(buf, c, f.perm as u64);
    let e = put_field(buf, d, f.length as u64);
    let g = put_field(buf, e, f.cvers as u64);
    put_field(buf, g, f.mtime as u64)
}

/// F: a record's numbers, and its name, which the caller lends.
pub fn put_file(buf: &mut [u8], at: usize, f: Record, name: &[u8]) -> usize
    ensures { Wrote buf.old at (file_line f name.now) buf.new result }
{
    let a = put_record(buf, at, f);
    let b = put_byte(buf, a, text::TAB);
    let c = put_name(buf, b, name);
    put_byte(buf, c, text::NEWLINE)
}

fn put_run(buf: &mut [u8], at: usize, e: Extent, kind: u8, address: u32) -> usize
    ensures { Wrote buf.old at (run_line e kind address) buf.new result }
{
    let a = put_byte(buf, at, b'E');
    let b = put_field(buf, a, e.offset as u64);
    let c = put_field(buf, b, e.count as u64);
    let d = put_byte(buf, c, text::TAB);
    let f = put_byte(buf, d, kind);
    let g = put_field(buf, f, address as u64);
    put_byte(buf, g, text::NEWLINE)
}

/// E: an extent; where it stands in the log, its address without the mark.
#[tactic(auto, unfolding(base::specs::Choice::if_true, meaning::specs::Message::in_log, crate::specs::Lines::extent_line))]
pub fn put_extent(buf: &mut [u8], at: usize, e: Extent) -> usize
    ensures { Wrote buf.old at (extent_line e) buf.new result }
{
    if e.address < 2147483648 {
        put_run(buf, at, e, b'D', e.address)
    } else {
        put_run(buf, at, e, b'L', e.address - 2147483648)
    }
}

/// X: a refusal's number and place.
pub fn put_refusal(buf: &mut [u8], at: usize, r: Refusal) -> usize
    ensures { Wrote buf.old at (refusal_line r) buf.new result }
{
    let number = outcome::number_of(r);
    let place = outcome::place_of(r);
    let a = put_byte(buf, at, b'X');
    let b = put_field(buf, a, number as u64);
    let c = put_field(buf, b, place);
    put_byte(buf, c, text::NEWLINE)
}
