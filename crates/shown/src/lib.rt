// The mount: the labels, then the replay of the log, then the data blocks that live extents need.
#![tactic(auto)]

ghost use Rattle.std.specs.Prelude.{◌≡◌, ◌≤◌, length, OnErr};
ghost use Rattle.meaning.specs.Mount.{mount_of};
ghost use Rattle.label.specs.Lent.{lent_of};
ghost use Rattle.flash_log.specs.Cursor.{Planned};
ghost use Rattle.shown.specs.Shown.{later, showing, told, Silent, Sized};

use flash_log::insertion;
use label::Flash;
use meaning::{Address, Place, Plan, Record, Refusal};
use runs::Span;
use used::Erase;

/// What a mount shows. The extents stand in rows that are lent. Arrays and counts, for there is no heap.
#[derive(Drop)]
pub struct Shown {
    /// The first `files`, by ascending path.
    pub records: [Record; 256],
    pub files: usize,
    /// How many rows.
    pub extents: usize,
    /// A bit a page, for each physical block.
    pub used: [u32; 1024],
    pub erase: Erase,
    pub insertion: Option<Address>,
    pub applied: u64,
    pub ignored: u64,
}

impl Shown {
    /// Nothing is shown.
    pub fn none() -> Shown
        ensures { Silent result }
    {
        let nowhere = Place { at: 0, len: 0 };
        let empty = Record {
            path: 0,
            parent: 0,
            perm: 0,
            length: 0,
            cvers: 0,
            mtime: 0,
            name: nowhere,
            uid: nowhere,
            gid: nowhere,
            muid: nowhere,
        };
        Shown {
            records: [empty; 256],
            files: 0,
            extents: 0,
            used: [0; 1024],
            erase: Erase::none(),
            insertion: None,
            applied: 0,
            ignored: 0,
        }
    }
}

// After the labels. What replay answered is large: it stays here, and what is called takes slices and numbers of it. The records are
// taken out of their slots, by ascending path. Nothing is stored before the last refusal.
fn planned(
    flash: &Flash,
    p: Plan,
    extents: &mut [[u32; 4]],
    shown: &mut Shown,
) -> Result<(), Refusal>
    requires { Planned flash.now p × (1024 ≤ length extents.old) }
    ensures extents_after { showing (told result shown.new) extents.new ≡ later flash.now.geometry (lent_of flash.now) }
    ensures sized { Sized flash.now.geometry (lent_of flash.now) (told result shown.new) extents.new }
    ensures kept { OnErr result (shown.new ≡ shown.old) }
{
    let mut spans = [Span::VACANT; 256];
    let mut rows = [[0u32; 4]; 4096];
    let r = replay::replay(flash, p, &mut spans, &mut rows, extents)?;
    let t = &r.tree;
    let count = t.count;
    runs::gathered(&spans, &rows, &t.slots, count, extents);
    let n = r.room.used;
    let xs = &extents[0..n];
    if let Some(q) = used::absent(flash, xs) {
        return Err(Refusal::Data(q));
    }
    for k in 0..count {
        let s = t.slots[k] as usize;
        shown.records[k] = t.records[s];
    }
    shown.used = used::used_bits(flash, xs);
    shown.erase = used::erase_list(flash, p, &shown.used);
    shown.insertion = insertion::insertion(flash, p);
    shown.files = count;
    shown.extents = n;
    shown.applied = r.applied;
    shown.ignored = r.ignored;
    Ok(())
}

/// What a mount of the lent slices shows, stored in `shown`, which a refusal leaves as it was. The extents' rows stand at the front of
/// `extents`; after a refusal what it holds is of no use. It is lent, and no answer by value, for it is large.
pub fn show(flash: &Flash, extents: &mut [[u32; 4]], shown: &mut Shown) -> Result<(), Refusal>
    requires { 1024 ≤ length extents.old }
    ensures extents_after { showing (told result shown.new) extents.new ≡ mount_of flash.now.geometry (lent_of flash.now) }
    ensures sized { Sized flash.now.geometry (lent_of flash.now) (told result shown.new) extents.new }
    ensures kept { OnErr result (shown.new ≡ shown.old) }
{
    let p = plan::select(flash)?;
    planned(flash, p, extents, shown)
}
