// What a mount shows besides the tree: which data is absent, which pages are used, and which blocks can be erased. Extents are
// rows [path, offset, count, address], as the crate extent keeps them.
#![tactic(auto)]

ghost use Rattle.std.specs.Prelude.{◌≡◌, [], false, map, ◌+◌, ◌-◌, ◌/◌, ◌<◌, ◌≤◌, ◌^◌, min, length, get_or};
ghost use Rattle.meaning.specs.Labels.{older};
ghost use Rattle.meaning.specs.Mount.{absent as the_absent, in_data, lacks as the_lacks};
ghost use Rattle.label.specs.Lent.{blocks, labels};
ghost use Rattle.extent.specs.Rows.{extent_of};
ghost use Rattle.used.specs.Needed.{over, refusal_of, Seen};
ghost use Rattle.used.specs.Bits.{Flagged, Marked, Touched, has_page, listed, page_bits, used_bits};
ghost use Rattle.used.specs.Erase.{erasable, erase_by, erase_of, unused};

use label::Flash;
use meaning::{Address, Block, Geometry, Plan, Tag};
use std::ops::Range;

// Bit 31 of an address: it is one in the log.
const IN_LOG: u32 = 2147483648;

// Data blocks are numbered below 2^33, as paths are below 2^34. No extent reaches further.
const NUMBERS: u64 = 8589934592;

// Whether an extent's bytes stand in a data block.
#[tactic(auto, unfolding(meaning::specs::Mount::in_data, meaning::specs::Message::in_log))]
fn in_data(row: [u32; 4]) -> bool
    ensures { result ≡ in_data (extent_of row) }
{
    row[3] < IN_LOG
}

// ---- the data that is needed

// An extent whose block was found before is not looked for again: many extents stand in few blocks.
#[tactic(auto, using(crate::proofs::Needed::lacking))]
fn lacks(flash: &Flash, seen: &mut [bool; 4096], row: [u32; 4]) -> bool
    requires { Seen (blocks flash.now) (labels flash.now) seen.old }
    ensures { (result ≡ the_lacks (over (blocks flash.now) flash.now.geometry) (labels flash.now) (extent_of row)) × Seen (blocks flash.now) (labels flash.now) seen.new }
{
    if !in_data(row) {
        return false;
    }
    let n = label::number_at(flash.geometry, Address(u64::from(row[3])));
    let d = n.0 as usize;
    if d < 4096 && seen[d] {
        return false;
    }
    if flash.find_data(n).is_none() {
        return true;
    }
    if d < 4096 {
        seen[d] = true;
    }
    false
}

/// DATA: "a live extent's data block is absent": the path of the first such. Extents ascend by path, so it is the lowest.
#[tactic(auto, using(crate::proofs::Needed::passes))]
pub fn absent(flash: &Flash, xs: &[[u32; 4]]) -> Option<u32>
    ensures { refusal_of result ≡ the_absent (over (blocks flash.now) flash.now.geometry) (labels flash.now) (map extent_of xs.now) }
{
    let mut seen = [false; 4096];
    // A `for`: the closure of a `find` would change the marks, and nothing would be known of them.
    for row in xs {
        if lacks(flash, &mut seen, *row) {
            return Some(row[0]);
        }
    }
    None
}

// ---- used pages

// The pages of data block d that an extent touches, by overlap of addresses. Two comparisons pass over an extent that touches
// none.
#[tactic(auto, using(crate::proofs::Touch::sizes))]
fn touched(g: Geometry, d: u64, row: [u32; 4]) -> Range<usize>
    requires { g.pages ≤ 32 }
    ensures { Touched g d (extent_of row) result }
{
    let count = row[2];
    let start = u64::from(row[3]);
    let end = start + u64::from(count);
    if NUMBERS <= d {
        return 0..0;
    }
    let block = label::block_size(g);
    let begin = d * block;
    if begin + block <= start || end <= begin || !in_data(row) {
        return 0..0;
    }
    let size = u64::from(g.size);
    let from = start.saturating_sub(begin) / size;
    let last = (end - 1).saturating_sub(begin) / size;
    let past = (last + 1).min(u64::from(g.pages));
    from as usize..past as usize
}

fn mark(flags: &mut [bool; 32], pages: Range<usize>)
    requires { (pages.start ≤ pages.end) × (pages.end ≤ 32) × (length flags.old ≡ 32) }
    ensures { Marked flags.old flags.new pages.start pages.end }
{
    flags[pages.start..pages.end].fill(true);
}

// Which pages of data block d are used: one pass over the extents.
fn flags_of(g: Geometry, xs: &[[u32; 4]], d: u64) -> [bool; 32]
    requires { g.pages ≤ 32 }
    ensures { Flagged g (map extent_of xs.now) d result }
{
    let mut flags = [false; 32];
    for row in xs {
        mark(&mut flags, touched(g, d, *row));
    }
    flags
}

#[tactic(auto, unfolding(crate::specs::Bits::page_bits))]
fn mask_of(flags: [bool; 32], n: usize) -> u32
    requires { n ≤ 32 }
    ensures { result ≡ page_bits n (λ p. get_or flags p false) }
{
    let mut mask = 0;
    for p in 0..n {
        if flags[p] {
            mask += 1 << p;
        }
    }
    mask
}

#[tactic(auto, using(crate::proofs::Masks::block_off, crate::proofs::Masks::block_on))]
fn block_bits(flash: &Flash, xs: &[[u32; 4]], b: Block) -> u32
    requires { flash.now.geometry.pages ≤ 32 }
    ensures { result ≡ used_bits (over (blocks flash.now) flash.now.geometry) (labels flash.now) (map extent_of xs.now) b.0 }
{
    if !flash.counts(Tag::Data, b) {
        return 0;
    }
    let d = flash.path_at(b) / 4;
    mask_of(
        flags_of(flash.geometry, xs, d),
        flash.geometry.pages as usize,
    )
}

/// The used pages of each physical block, a bit a page; 0 past the last block.
#[tactic(auto, using(crate::proofs::Masks::list_more))]
pub fn used_bits(flash: &Flash, xs: &[[u32; 4]]) -> [u32; 1024]
    requires { flash.now.geometry.pages ≤ 32 }
    ensures { result ≡ listed 1024 (used_bits (over (blocks flash.now) flash.now.geometry) (labels flash.now) (map extent_of xs.now)) }
{
    let mut masks = [0; 1024];
    for i in 0..flash.tags.len().min(1024) {
        masks[i] = block_bits(flash, xs, Block(i));
    }
    masks
}

/// Whether page p is set in a block's used pages.
#[tactic(auto, using(crate::proofs::Bits::past_bits), unfolding(crate::specs::Bits::has_page))]
pub fn has_page(mask: u32, p: usize) -> bool
    ensures { result ≡ has_page mask p }
{
    p < 32 && (mask >> p) % 2 == 1
}

// ---- the erase list

/// Physical blocks, ascending: the first `count` places. An array and a count, as a host in C takes it.
#[repr(C)]
#[derive(Drop)]
pub struct Erase {
    pub blocks: [u32; 1024],
    pub count: usize,
}

impl Erase {
    /// No block.
    pub fn none() -> Erase
        ensures value { result ≡ erase_of [] }
        ensures nothing { result.count ≡ 0 }
    {
        Erase {
            blocks: [0; 1024],
            count: 0,
        }
    }
}

// "Data blocks with no used page". An older copy is not asked.
#[tactic(auto, unfolding(crate::specs::Erase::unused, meaning::specs::Labels::counts))]
fn is_unused(flash: &Flash, mask: u32, b: Block) -> bool
    requires { (b.0 < blocks flash.now) × (false ≡ older (blocks flash.now) (labels flash.now) b.0) }
    ensures { result ≡ unused (blocks flash.now) (labels flash.now) mask b.0 }
{
    mask == 0 && flash.is_tag(Tag::Data, b)
}

// The caller says whether block b is an older copy.
#[tactic(auto, unfolding(crate::specs::Erase::erasable))]
fn is_erasable(flash: &Flash, p: Plan, old: bool, mask: u32, b: Block) -> bool
    requires { (b.0 < blocks flash.now) × (old ≡ older (blocks flash.now) (labels flash.now) b.0) }
    ensures { result ≡ erasable (blocks flash.now) (labels flash.now) p mask b.0 }
{
    old || plan::is_dropped(flash, p, b) || is_unused(flash, mask, b)
}

/// The erase list by the plan and the used pages of each block.
#[tactic(auto, using(crate::proofs::Erasable::kept_done, label::proofs::Noted::olders_at), unfolding(crate::specs::Erase::erase_by))]
pub fn erase_list(flash: &Flash, p: Plan, masks: &[u32]) -> Erase
    requires { blocks flash.now ≤ 1024 }
    ensures { result ≡ erase_of (erase_by (blocks flash.now) (labels flash.now) p masks.now) }
{
    let olders = flash.olders();
    let mut blocks = [0; 1024];
    let mut count = 0;
    for i in 0..flash.tags.len() {
        let mask = masks.get(i).copied().unwrap_or(0);
        if is_erasable(flash, p, olders[i], mask, Block(i)) {
            blocks[count] = i as u32;
            count += 1;
        }
    }
    Erase { blocks, count }
}
