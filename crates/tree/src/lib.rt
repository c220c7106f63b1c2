// The records that replay keeps, by path. A record keeps its slot; only the paths and the numbers of the slots are shifted, so that a
// create or a remove costs little, and whoever owns a Tree changes it in place, a field at a time.
#![tactic(auto)]

ghost use Rattle.std.specs.Prelude.{◌≡◌, [], ◌∷◌};
ghost use Rattle.meaning.specs.Replay.{root, is_empty};
ghost use Rattle.tree.specs.Tree.{Kept, files, Numbered};

use meaning::{Place, Record};
use std::array;

mod field;
mod judge;
mod keys;

pub use field::{
    created, given, given_text, is_dir, is_entry, restated, stamped, truncated, written,
};
pub use judge::{applies, judge_create, judge_remove, judge_truncate, judge_write, judge_wstat};
pub use keys::{close_at, find, find_near, open_at};

// Arrays and a count, for there is no heap; paths and slots apart, so that a search reads paths alone.
#[derive(Clone, Copy)]
pub struct Tree {
    /// Each in a slot of its own.
    pub records: [Record; 256],
    /// The first count: the paths of the live records, ascending.
    pub keys: [u32; 256],
    /// The first count: the slots of the live records, in the order of their paths; then the free slots.
    pub slots: [u32; 256],
    pub count: usize,
}

/// The root alone.
pub fn bare() -> Tree
    ensures { (files result ≡ root ∷ []) × Kept result }
{
    let nothing = Place { at: 0, len: 0 };
    let empty = Record {
        path: 0,
        parent: 0,
        perm: 0,
        length: 0,
        cvers: 0,
        mtime: 0,
        name: nothing,
        uid: nothing,
        gid: nothing,
        muid: nothing,
    };
    // Slots of zeros are filled many bytes at a time.
    let mut records = [empty; 256];
    records[0] = Record {
        perm: 0x800001ed,
        ..empty
    };
    Tree {
        records,
        keys: [0; 256],
        slots: numbered(),
        count: 1,
    }
}

/// The slots in their own order.
fn numbered() -> [u32; 256]
    ensures { Numbered result 256 }
{
    array::from_fn(|k| k as u32)
}

/// No record is an entry of directory p.
pub fn is_empty(t: &Tree, p: u32) -> bool
    requires { Kept t.now }
    ensures { result ≡ is_empty p (files t.now) }
{
    for s in &t.slots[..t.count] {
        if is_entry(t.records[*s as usize], p) {
            return false;
        }
    }
    true
}
