// A list of steps, cut everywhere: the power goes between any two steps and within each step, on a copy of the image, and what is left
// is compared with what the image showed before.
#![tactic(auto)]

mod judge;
mod junk;
mod lists;
mod spare;

ghost use Rattle.std.specs.Prelude.{◌≡◌, ◌+◌, ◌-◌, ◌%◌, ◌^◌, ◌≤◌, length};

pub use judge::Before;
use junk::Junk;
use label::{Flash, Label};
pub use lists::{erases, label_first};
use meaning::Step;
pub use spare::{Spare, reclaim, settle};

// The path of a free block, 2^34 − 1.
const FREE: u64 = 17179869183;

/// How many cut states were tried, and how many of them showed the same.
#[derive(Clone, Copy)]
pub struct Tried {
    pub cuts: u64,
    pub same: u64,
}

impl Tried {
    pub fn none() -> Tried
        ensures { (result.cuts ≡ 0) × (result.same ≡ 0) }
    {
        Tried { cuts: 0, same: 0 }
    }

    fn one(same: bool) -> Tried {
        Tried {
            cuts: 1,
            same: u64::from(same),
        }
    }

    pub fn and(self, more: Tried) -> Tried
        ensures { (result.cuts ≡ (self.cuts + more.cuts) % 2 ^ 64) × (result.same ≡ (self.same + more.same) % 2 ^ 64) }
    {
        Tried {
            cuts: self.cuts.wrapping_add(more.cuts),
            same: self.same.wrapping_add(more.same),
        }
    }

    /// How many did not show the same.
    pub fn differ(self) -> u64
        ensures { self.same ≤ self.cuts → result ≡ self.cuts - self.same }
    {
        self.cuts.wrapping_sub(self.same)
    }
}

// A step cut short leaves junk in the block under work and its label as it was; an erase may also leave junk and a free label. A label
// is old or new, which is between steps both times.
fn try_within(
    flash: &Flash,
    done: &[Step],
    next: Step,
    before: &Before,
    spare: &mut Spare,
    out: &mut [u8],
) -> Tried {
    let mut t = Tried::none();
    let block = match next {
        Step::Erase(b) => b,
        Step::PageWrite { to, .. } => to,
        Step::LabelWrite { .. } => return t,
    };
    for junk in &[Junk::Zeros, Junk::Blank, Junk::Scattered, Junk::Create] {
        spare.hold_after(flash, done);
        spare.spoil(block, *junk);
        t = t.and(Tried::one(judge::shows_same(flash, &spare.flash(), before, out)));
        if matches!(next, Step::Erase(_)) {
            spare.step(Step::LabelWrite {
                block,
                tag: Label::FREE,
                path: FREE,
            });
            t = t.and(Tried::one(judge::shows_same(flash, &spare.flash(), before, out)));
        }
    }
    t
}

// Every state of a cut after k steps: between two steps, and within the next.
fn try_cut(
    flash: &Flash,
    steps: &[Step],
    k: usize,
    before: &Before,
    spare: &mut Spare,
    out: &mut [u8],
) -> Tried
    requires { k ≤ length steps.now }
{
    let done = &steps[..k];
    spare.hold_after(flash, done);
    let t = Tried::one(judge::shows_same(flash, &spare.flash(), before, out));
    match steps.get(k) {
        None => t,
        Some(next) => t.and(try_within(flash, done, *next, before, spare, out)),
    }
}

/// The steps of a list done on the image, cut at every place. The spare holds each cut state in turn, and `out` its listing.
pub fn try_list(
    flash: &Flash,
    steps: &[Step],
    before: &Before,
    spare: &mut Spare,
    out: &mut [u8],
) -> Tried {
    let mut t = Tried::none();
    for k in 0..=steps.len() {
        t = t.and(try_cut(flash, steps, k, before, spare, out));
    }
    t
}
