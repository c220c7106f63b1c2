// The insertion point: where the log goes on. Only pages of its last block are looked at.
ghost use Rattle.std.specs.Prelude.{◌≡◌, ◌+◌, ◌≤◌, ◌<◌, length};
ghost use Rattle.meaning.specs.Flash.{block_size};
ghost use Rattle.meaning.specs.Log.{insertion as the_insertion, replayed};
ghost use Rattle.label.specs.Lent.{image, lent_of};
ghost use Rattle.flash_log.specs.Cursor.{Planned};
ghost use Rattle.flash_log.specs.Point.{blank_page, is_blank, point};

use label::Flash;
use meaning::{Address, Number, Plan};

// Whether a page of the block that begins at `begin` in the contents is blank.
#[tactic(auto, using(crate::proofs::Sizes::page_in), unfolding(crate::specs::Point::is_blank))]
fn is_blank(flash: &Flash, begin: usize, page: u16) -> bool
    requires { (begin + block_size flash.now.geometry ≤ length flash.now.contents.now) × (page < flash.now.geometry.pages) }
    ensures { result ≡ is_blank flash.now.geometry flash.now.contents.now begin page }
{
    let size = flash.geometry.size as usize;
    let a = begin + page as usize * size;
    let e = a + size;
    message::is_blank(&flash.contents[a..e])
}

// The first blank page of that block, whose number is n.
#[tactic(auto, using(crate::proofs::Blank::blank_none, label::proofs::Scanned::clear_start, label::proofs::Scanned::clear_more))]
fn first_blank(flash: &Flash, begin: usize, n: Number) -> Option<Address>
    requires { begin + block_size flash.now.geometry ≤ length flash.now.contents.now }
    ensures { result ≡ point (blank_page flash.now.geometry flash.now.contents.now begin n.0) }
{
    for page in 0..flash.geometry.pages {
        if is_blank(flash, begin, page) {
            return Some(label::address_of(flash.geometry, n, page, 0));
        }
    }
    None
}

/// "The insertion point is the first blank page of the last log block (of the active log if two), or none." Where there is a log,
/// there is an active one.
pub fn insertion(flash: &Flash, p: Plan) -> Option<Address>
    requires { Planned flash.now p }
    ensures { result ≡ point (the_insertion flash.now.geometry (replayed flash.now.geometry (image flash.now))) }
{
    if p.active == 0 {
        return None;
    }
    let last = Number(p.start.0 + (p.active - 1) as u32);
    let b = plan::find_log(flash, p, last)?;
    let begin = b.0 as u64 * label::block_size(flash.geometry);
    first_blank(flash, begin as usize, last)
}
