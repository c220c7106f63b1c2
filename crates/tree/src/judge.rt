// The verdict on a message, once the record that it speaks of is found: its tests in the order written.
#![tactic(auto, unfolding(base::specs::Choice::if_true, base::specs::Choice::if_eq, meaning::specs::Replay::is_dir, crate::specs::Judge::judge_create, crate::specs::Judge::judge_remove, crate::specs::Judge::judge_truncate, crate::specs::Judge::judge_write, crate::specs::Judge::judge_wstat))]

ghost use Rattle.std.specs.Prelude.{◌≡◌};
ghost use Rattle.std.specs.Bool.{xor};
ghost use Rattle.meaning.specs.Replay.{is_dir, bit31, given as the_given, applies as the_applies};
ghost use Rattle.tree.specs.Judge.{judge_create, judge_remove, judge_truncate, judge_write, judge_wstat};

use crate::field::{given, is_dir};
use meaning::{Place, Record, Verdict};

/// c, where the parent is there. taken: a record of the new path is there.
pub fn judge_create(parent: Record, taken: bool) -> Verdict
    ensures { result ≡ judge_create parent taken }
{
    if !is_dir(parent.perm) {
        Verdict::ParentNoDirectory
    } else if taken {
        Verdict::PathTaken
    } else {
        Verdict::Applied
    }
}

/// r, of the record f of path. empty: no record is an entry of it.
pub fn judge_remove(path: u32, f: Record, empty: bool) -> Verdict
    ensures { result ≡ judge_remove path f empty }
{
    if path == 0 {
        Verdict::TheRoot
    } else if is_dir(f.perm) && !empty {
        Verdict::NotEmpty
    } else {
        Verdict::Applied
    }
}

/// t, of the record f.
pub fn judge_truncate(f: Record) -> Verdict
    ensures { result ≡ judge_truncate f }
{
    if is_dir(f.perm) {
        Verdict::Directory
    } else {
        Verdict::Applied
    }
}

/// w, of the record f.
pub fn judge_write(f: Record, cvers: u32) -> Verdict
    ensures { result ≡ judge_write f cvers }
{
    if is_dir(f.perm) {
        Verdict::Directory
    } else if cvers == f.cvers {
        Verdict::Applied
    } else {
        Verdict::OtherVersion
    }
}

/// The perm as given would change bit 31.
#[tactic(auto, using(crate::proofs::Judged::differ), unfolding(meaning::specs::Replay::is_dir))]
fn turns(f: Record, perm: u32) -> bool
    ensures { result ≡ xor (is_dir f) (bit31 (the_given perm f.perm)) }
{
    is_dir(f.perm) != is_dir(given(perm, f.perm))
}

/// W, of the record f of path.
pub fn judge_wstat(path: u32, f: Record, name: Place, perm: u32) -> Verdict
    ensures { result ≡ judge_wstat path f name perm }
{
    if turns(f, perm) {
        Verdict::DirectoryBit
    } else if path == 0 && name.len != 0 {
        Verdict::RootName
    } else {
        Verdict::Applied
    }
}

/// The message is applied.
#[tactic(auto, unfolding(meaning::specs::Replay::applies))]
pub fn applies(v: Verdict) -> bool
    ensures { result ≡ the_applies v }
{
    matches!(v, Verdict::Applied)
}
