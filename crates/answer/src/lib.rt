// What a mount answers, by value and in numbers, as a host takes it: all that is shown, with the records beside it. Nothing that is lent
// is changed here.
#![tactic(auto)]

ghost use Rattle.std.specs.Prelude.{◌≡◌, ◌≤◌, map, length, take, IfOk, OnErr};
ghost use Rattle.label.specs.Lent.{lent_of};
ghost use Rattle.extent.specs.Rows.{extent_of};
ghost use Rattle.shown.specs.Shown.{place_of, showing, told, Sized};
ghost use Rattle.answer.specs.Mounted.{insertion_of, mount_in, Cored};

use label::Flash;
use meaning::{Address, Extent, Record, Refusal};
use outcome::Outcome;
use shown::Shown;
use used::Erase;

/// The insertion point: its address, where there is one. A count and a number, as a host in C takes it.
#[repr(C)]
#[derive(Clone, Copy)]
pub struct Insertion {
    /// 0 or 1.
    pub count: usize,
    pub address: u64,
}

/// What a mount answers. The records stand in the lent table. Arrays and counts, as a host in C takes them.
#[repr(C)]
#[derive(Drop)]
pub struct Mounted {
    pub said: Outcome,
    /// How many.
    pub records: usize,
    pub applied: u64,
    pub ignored: u64,
    pub insertion: Insertion,
    pub erase: Erase,
    /// A bit a page, for each physical block.
    pub used: [u32; 1024],
    /// The first `runs`, by path and offset.
    pub runs: usize,
    pub extents: [Extent; 1024],
}

/// The answer, and the first n records for the table.
#[derive(Drop)]
pub struct Core {
    pub all: [Record; 256],
    pub n: usize,
    pub answer: Mounted,
}

// ---- in numbers

impl From<Option<Address>> for Insertion {
    ghost from_gives = { λ p o. o ≡ insertion_of (place_of p) };

    fn from(p: Option<Address>) -> Insertion {
        match p {
            Some(a) => Insertion {
                count: 1,
                address: a.0,
            },
            None => Insertion {
                count: 0,
                address: 0,
            },
        }
    }
}

const NO_EXTENT: Extent = Extent {
    path: 0,
    offset: 0,
    count: 0,
    address: 0,
};

// The first n rows.
fn extents_of(rows: &[[u32; 4]], n: usize) -> [Extent; 1024]
    requires { (n ≤ 1024) × (n ≤ length rows.now) }
    ensures { take n result ≡ map extent_of (take n rows.now) }
{
    let mut extents = [NO_EXTENT; 1024];
    for k in 0..n {
        let row = rows[k];
        extents[k] = Extent {
            path: row[0],
            offset: row[1],
            count: row[2],
            address: row[3],
        };
    }
    extents
}

// ---- the answer

// GEOMETRY: "a slice length is wrong": a table that has not 256 places is refused.
fn show_in(
    flash: &Flash,
    places: usize,
    rows: &mut [[u32; 4]],
    shown: &mut Shown,
) -> Result<(), Refusal>
    requires { 1024 ≤ length rows.old }
    ensures shows { showing (told result shown.new) rows.new ≡ mount_in flash.now.geometry (lent_of flash.now) places }
    ensures sized { Sized flash.now.geometry (lent_of flash.now) (told result shown.new) rows.new }
    ensures room { IfOk (told result shown.new) (λ s. s.files ≤ places) }
    ensures kept { OnErr result (shown.new ≡ shown.old) }
{
    if places != 256 {
        return Err(Refusal::Geometry);
    }
    shown::show(flash, rows, shown)
}

/// All that a mount shows, where the table has so many places; any but 256 are refused. A refusal has no records: what is shown is as it
/// was then, nothing. So there is one way to the answer, and it is copied no more than it must be.
pub fn show_all(flash: &Flash, places: usize) -> Core
    ensures { Cored flash.now.geometry (lent_of flash.now) places result }
{
    let mut rows = [[0u32; 4]; 1024];
    let mut s = Shown::none();
    let ended = show_in(flash, places, &mut rows, &mut s);
    let extents = extents_of(&rows, s.extents);
    let all = s.records;
    let used = s.used;
    let erase = s.erase;
    let insertion = Insertion::from(s.insertion);
    let said = Outcome::from(ended);
    Core {
        all,
        n: s.files,
        answer: Mounted {
            records: s.files,
            extents,
            runs: s.extents,
            used,
            erase,
            insertion,
            applied: s.applied,
            ignored: s.ignored,
            said,
        },
    }
}
