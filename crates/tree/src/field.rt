// What a message makes of a record, and the tests on one.
#![tactic(auto, unfolding(base::specs::Choice::if_true, base::specs::Choice::if_eq, meaning::specs::Replay::bit31, meaning::specs::Replay::entry_of, meaning::specs::Replay::stamp, meaning::specs::Replay::sized, meaning::specs::Replay::created, meaning::specs::Replay::truncated, meaning::specs::Replay::written, meaning::specs::Replay::given, meaning::specs::Replay::given_text, meaning::specs::Replay::restated))]

ghost use Rattle.std.specs.Prelude.{◌≡◌, ◌+◌, ◌<◌};
ghost use Rattle.meaning.specs.Replay.{bit31, stamp, given_text, entry_of, created as the_created, truncated as the_truncated, written as the_written, restated as the_restated, given as the_given};

use meaning::{Extent, Place, Record};

/// Bit 31 of perm marks a directory.
pub fn is_dir(perm: u32) -> bool
    ensures { result ≡ bit31 perm }
{
    0x80000000 <= perm
}

/// f is an entry of directory p; the root is no entry.
pub fn is_entry(f: Record, p: u32) -> bool
    ensures { result ≡ entry_of p f }
{
    f.parent == p && f.path != 0
}

/// mtime and muid as given.
pub fn stamped(f: Record, mtime: u32, muid: Place) -> Record
    ensures { result ≡ stamp mtime muid f }
{
    Record { mtime, muid, ..f }
}

/// A new record, by the fields of the message, each once: muid is uid, length 0.
pub fn created(
    parent: u32,
    perm: u32,
    path: u32,
    mtime: u32,
    cvers: u32,
    name: Place,
    uid: Place,
    gid: Place,
) -> Record
    ensures { result ≡ the_created parent perm path mtime cvers name uid gid }
{
    Record {
        path,
        parent,
        perm,
        length: 0,
        cvers,
        mtime,
        name,
        uid,
        gid,
        muid: uid,
    }
}

/// Length 0; cvers, mtime and muid as given.
pub fn truncated(f: Record, mtime: u32, cvers: u32, muid: Place) -> Record
    ensures { result ≡ the_truncated mtime cvers muid f }
{
    Record {
        length: 0,
        cvers,
        mtime,
        muid,
        ..f
    }
}

/// Length grows to offset + count if larger; mtime and muid as given.
pub fn written(f: Record, run: Extent, mtime: u32, muid: Place) -> Record
    requires { run.offset + run.count < 4294967296 }
    ensures { result ≡ the_written run mtime muid f }
{
    Record {
        length: f.length.max(run.offset + run.count),
        mtime,
        muid,
        ..f
    }
}

/// All ones is no change.
pub fn given(new: u32, old: u32) -> u32
    ensures { result ≡ the_given new old }
{
    if new == 0xffffffff { old } else { new }
}

/// An empty string is no change.
pub fn given_text(new: Place, old: Place) -> Place
    ensures { result ≡ given_text new old }
{
    if new.len == 0 { old } else { new }
}

/// The fields that are given.
pub fn restated(
    f: Record,
    name: Place,
    perm: u32,
    uid: Place,
    gid: Place,
    mtime: u32,
    muid: Place,
) -> Record
    ensures { result ≡ the_restated name perm uid gid mtime muid f }
{
    Record {
        name: given_text(name, f.name),
        perm: given(perm, f.perm),
        uid: given_text(uid, f.uid),
        gid: given_text(gid, f.gid),
        mtime: given(mtime, f.mtime),
        muid: given_text(muid, f.muid),
        ..f
    }
}
