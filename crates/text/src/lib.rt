// The pieces of a line of text: a head, a number, bytes in hex. Each takes the byte that ends it, so a line is read piece by piece.
// Every function is total: past the end of the text stands a newline, so a last line without one needs no case of its own.
#![tactic(auto, unfolding(base::specs::Choice::if_less, base::specs::Choice::if_eq, base::specs::Choice::if_true, base::specs::Choice::bind, crate::specs::Piece::on_read, crate::specs::Piece::peek_at, crate::specs::Piece::past_at, crate::specs::Piece::hex_digit, crate::specs::Piece::hex_at, crate::specs::Piece::head_at, crate::specs::Piece::byte_at, crate::specs::Piece::number_at, crate::specs::Piece::number_step, crate::specs::Piece::run_at, crate::specs::Piece::run_step), using(crate::proofs::Loops::number_turn, crate::proofs::Loops::number_out, crate::proofs::Loops::run_turn, crate::proofs::Loops::run_out))]

ghost use Rattle.std.specs.Prelude.{◌≡◌, ◌<◌, IfSome};
ghost use Rattle.text.specs.Piece.{byte_at, hex_at, hex_digit, head_at, number_at, past_at, peek_at, run_at};

pub const TAB: u8 = b'\t';

pub const NEWLINE: u8 = b'\n';

/// What a piece says, and the place past the byte that ends it.
#[derive(Clone, Copy)]
pub struct Field<T> {
    pub value: T,
    pub next: usize,
}

pub fn peek(s: &[u8], at: usize) -> u8
    ensures { result ≡ peek_at s.now at }
{
    s.get(at).copied().unwrap_or(NEWLINE)
}

/// The next place. It stays at the end, so no sum wraps.
pub fn past(s: &[u8], at: usize) -> usize
    ensures { result ≡ past_at s.now at }
{
    if at < s.len() { at + 1 } else { at }
}

/// What a hex digit of either case stands for.
pub fn hex_digit(b: u8) -> Option<u8>
    ensures value { result ≡ hex_digit b }
    ensures upper_bound { IfSome result (λ d. d < 16) }
{
    match b {
        b'0'..=b'9' => Some(b - b'0'),
        b'A'..=b'F' => Some(b - b'A' + 10),
        b'a'..=b'f' => Some(b - b'a' + 10),
        _ => None,
    }
}

/// The byte that two hex digits spell.
pub fn hex_at(s: &[u8], at: usize) -> Option<u8>
    ensures { result ≡ hex_at s.now at }
{
    let h = hex_digit(peek(s, at))?;
    let l = hex_digit(peek(s, past(s, at)))?;
    Some(h * 16 + l)
}

/// A letter and a tab: the place past them.
pub fn head_at(s: &[u8], at: usize, letter: u8) -> Option<usize>
    ensures { result ≡ head_at s.now at letter }
{
    let i = past(s, at);
    if peek(s, at) == letter && peek(s, i) == TAB {
        Some(past(s, i))
    } else {
        None
    }
}

/// A decimal number below 2^64, and the byte stop.
pub fn number_at(s: &[u8], at: usize, stop: u8) -> Option<Field<u64>>
    ensures { result ≡ number_at s.now at stop }
{
    if peek(s, at) == stop {
        return None;
    }
    let mut i = at;
    let mut n: u64 = 0;
    for _k in 0..21u32 {
        let b = peek(s, i);
        let next = past(s, i);
        if b == stop {
            return Some(Field { value: n, next });
        }
        let d = hex_digit(b)?;
        if 9 < d {
            return None;
        }
        n = n.checked_mul(10)?.checked_add(u64::from(d))?;
        i = next;
    }
    None
}

/// Two hex digits, and the byte stop.
pub fn byte_at(s: &[u8], at: usize, stop: u8) -> Option<Field<u8>>
    ensures { result ≡ byte_at s.now at stop }
{
    let value = hex_at(s, at)?;
    let i = past(s, past(s, at));
    if peek(s, i) == stop {
        Some(Field {
            value,
            next: past(s, i),
        })
    } else {
        None
    }
}

/// One to size bytes in hex, and the line's end: how many there are.
pub fn run_at(s: &[u8], at: usize, size: u16) -> Option<Field<u64>>
    ensures { result ≡ run_at s.now at size }
{
    if peek(s, at) == NEWLINE {
        return None;
    }
    let mut i = at;
    for n in 0..=u64::from(size) {
        let j = past(s, i);
        if peek(s, i) == NEWLINE {
            return Some(Field { value: n, next: j });
        }
        hex_at(s, i)?;
        i = past(s, j);
    }
    None
}
