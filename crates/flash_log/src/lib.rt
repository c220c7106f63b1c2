// The log, one turn at a time: from a cursor, what comes next. Neither a tree nor a list of messages is held here: replay owns the
// tree, and asks for one turn after another.
#![tactic(auto)]

ghost use Rattle.std.specs.Prelude.{◌≡◌, ◌≤◌, ◌<◌};
ghost use Rattle.meaning.specs.Log.{log_of, replayed};
ghost use Rattle.message.specs.Page.{Ranged, page as the_page};
ghost use Rattle.label.specs.Lent.{image, lent_of};
ghost use Rattle.flash_log.specs.Turn.{block_at, in_page, last_at, next_page, on_block, onto, opened, spoken, turn_of};
ghost use Rattle.flash_log.specs.Cursor.{Planned, Placed, Says, ahead, left, whole};

use label::Flash;
use meaning::{Address, Geometry, Message, Number, Parsed, Plan, Refusal};

pub mod insertion;

/// A place in the log.
#[derive(Clone, Copy)]
pub struct Cursor {
    /// Which of the blocks that are replayed, counted over the swept and then the active log.
    pub k: usize,
    /// Its number.
    pub number: Number,
    /// Where it begins in the contents.
    pub begin: u32,
    pub page: u16,
    /// Position in the page. 0: the page has not been looked at.
    pub at: usize,
    /// A blank page has stood before in this block.
    pub gap: bool,
}

/// What comes next. The cursor stands first, where a turn without a message has it too: a turn then stays in registers.
#[derive(Clone, Copy)]
pub enum Turn {
    /// The log is at its end.
    End,
    /// PAGE or MESSAGE, with its address.
    Refused(Refusal),
    /// No message here: a page or a block is done.
    On(Cursor),
    /// Where to go on, a message, and its address.
    Told(Cursor, Message, Address),
}

/// What a page is where its messages are asked for.
#[derive(Clone, Copy)]
enum Opening {
    Written,
    /// Blank, where a blank page may stand.
    Blank,
    Bad,
}

// ---- places

#[tactic(auto, unfolding(crate::specs::Turn::next_page))]
fn next_page(c: Cursor, gap: bool) -> Cursor
    requires { c.page < 65535 }
    ensures { result ≡ next_page c gap }
{
    Cursor {
        page: c.page + 1,
        at: 0,
        gap,
        ..c
    }
}

#[tactic(auto, unfolding(crate::specs::Turn::in_page))]
fn in_page(c: Cursor, at: usize) -> Cursor
    ensures { result ≡ in_page c at }
{
    Cursor { at, ..c }
}

// Whether block k is the last of its generation.
#[tactic(auto, unfolding(crate::specs::Turn::last_at, base::specs::Choice::if_less, base::specs::Choice::if_true))]
fn is_last(p: Plan, k: usize) -> bool
    ensures { result ≡ last_at p k }
{
    if k < p.swept {
        return p.swept - k == 1;
    }
    let i = k - p.swept;
    i < p.active && p.active - i == 1
}

// ---- blocks

// Block k, of number n: a cursor at its first page.
fn on_block(flash: &Flash, p: Plan, k: usize, n: Number) -> Option<Cursor>
    requires { Planned flash.now p }
    ensures { result ≡ on_block flash.now.geometry (lent_of flash.now) p k n.0 }
{
    let b = plan::find_log(flash, p, n)?;
    let begin = b.0 as u64 * label::block_size(flash.geometry);
    Some(Cursor {
        k,
        number: n,
        begin: begin as u32,
        page: 0,
        at: 0,
        gap: false,
    })
}

// Block k, or the end: "The swept log is replayed first."
#[tactic(auto, using(crate::proofs::Told::swept_low, crate::proofs::Told::active_low, crate::proofs::Told::start_low), unfolding(crate::specs::Turn::block_at, base::specs::Choice::if_less, base::specs::Choice::if_true))]
fn block_at(flash: &Flash, p: Plan, k: usize) -> Option<Cursor>
    requires { Planned flash.now p }
    ensures { result ≡ block_at flash.now.geometry (lent_of flash.now) p k }
{
    let n = if k < p.swept {
        Number(k as u32)
    } else if k - p.swept < p.active {
        Number(p.start.0 + (k - p.swept) as u32)
    } else {
        return None;
    };
    on_block(flash, p, k, n)
}

// ---- pages

// What stands at the cursor's position of a page that holds messages.
#[tactic(auto, using(crate::proofs::Told::malformed_is, crate::proofs::Told::end_is))]
fn message_at(g: Geometry, bytes: &[u8], address: Address, begin: u32, c: Cursor) -> Turn
    requires { Ranged g bytes.now address.0 begin × (c.page < 65535) × (c.at ≤ 65536) }
    ensures { result ≡ spoken g (the_page bytes.now address.0 begin) c }
{
    let here = Address(address.0 + c.at as u64);
    match message::parse(message::embedded_limit(g), g, bytes, address, begin, c.at) {
        Parsed::Malformed => Turn::Refused(Refusal::Message(here)),
        Parsed::End => Turn::On(next_page(c, false)),
        Parsed::Found(m, past) => Turn::Told(in_page(c, past), m, here),
    }
}

// What the cursor's page is: one that has not been looked at is told blank from written by its first byte, and only a blank one is
// looked at whole.
#[tactic(auto, unfolding(crate::specs::Turn::opened, crate::specs::Turn::fresh, base::specs::Choice::if_less, base::specs::Choice::if_eq, base::specs::Choice::if_true))]
fn page_start(bytes: &[u8], p: Plan, c: Cursor) -> Opening
    ensures { result ≡ opened p bytes.now c }
{
    if 0 < c.at {
        return Opening::Written;
    }
    match message::byte_at(bytes, 0) {
        0xff if message::is_blank(bytes) && is_last(p, c.k) => Opening::Blank,
        0xff => Opening::Bad,
        _ if c.gap => Opening::Bad,
        _ => Opening::Written,
    }
}

// ---- the log

/// The first block, or nowhere where there is no log.
#[tactic(auto, using(crate::proofs::Ahead::first_says))]
pub fn first(flash: &Flash, p: Plan) -> Option<Cursor>
    requires { Planned flash.now p }
    ensures value { result ≡ block_at flash.now.geometry (lent_of flash.now) p 0 }
    ensures ahead { Says flash.now.geometry (lent_of flash.now) p (whole p) (log_of flash.now.geometry (replayed flash.now.geometry (image flash.now))) (onto result) }
{
    block_at(flash, p, 0)
}

/// What comes next at a cursor.
#[tactic(auto, using(crate::proofs::Told::part_low, crate::proofs::Told::page_few))]
pub fn next(flash: &Flash, p: Plan, c: Cursor) -> Turn
    requires { Planned flash.now p × Placed flash.now.geometry (lent_of flash.now) p c }
    ensures value { result ≡ turn_of flash.now.geometry (lent_of flash.now) p c }
    ensures ahead { Says flash.now.geometry (lent_of flash.now) p (left flash.now.geometry p c) (ahead flash.now.geometry (lent_of flash.now) c) result }
{
    if c.page == flash.geometry.pages {
        return match block_at(flash, p, c.k + 1) {
            Some(d) => Turn::On(d),
            None => Turn::End,
        };
    }
    let address = label::address_of(flash.geometry, c.number, c.page, 0);
    let begin = c.begin + c.page as u32 * flash.geometry.size as u32;
    let a = begin as usize;
    let e = a + flash.geometry.size as usize;
    let bytes = &flash.contents[a..e];
    match page_start(bytes, p, c) {
        Opening::Bad => Turn::Refused(Refusal::Page(address)),
        Opening::Blank => Turn::On(next_page(c, true)),
        Opening::Written => message_at(flash.geometry, bytes, address, begin, c),
    }
}
