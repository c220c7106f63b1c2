// What a message would do: the path that it speaks of, and what it makes of the record there.
#![tactic(auto, unfolding(base::specs::Choice::if_true, base::specs::Choice::if_eq, crate::specs::Edit::subject, crate::specs::Edit::edit_if, crate::specs::Edit::edit_of, crate::specs::Edit::newborn, crate::specs::Edit::stamped_by))]

ghost use Rattle.std.specs.Prelude.{◌≡◌, ◌+◌, ◌^◌, ◌<◌};
ghost use Rattle.flash_log.specs.Cursor.{Ranged};
ghost use Rattle.meaning.specs.Replay.{applies, restated, truncated, written};
ghost use Rattle.tree.specs.Judge.{judge_truncate, judge_write, judge_wstat};
ghost use Rattle.change.specs.declared.edit.Edit.TheVariants.{Restated, Truncated, Written};
ghost use Rattle.change.specs.Edit.{subject, edit_if, edit_of, newborn, stamped_by};

use meaning::{Extent, Message, Place, Record};

/// What a message does to the file that bears its path: the record that it makes of it, and what becomes of its extents.
#[derive(Clone, Copy)]
pub enum Edit {
    Ignored,
    /// A run is laid over them.
    Written(Extent, Record),
    /// They go.
    Truncated(Record),
    /// They stay.
    Restated(Record),
    /// The file goes, unless it is a directory with entries.
    Removed,
}

/// The path of the file that a message speaks of.
pub fn path_of(m: Message) -> u32
    ensures { (result ≡ subject m) × (result < 2 ^ 32) }
{
    match m {
        Message::Create { path, .. }
        | Message::Remove { path, .. }
        | Message::Truncate { path, .. }
        | Message::Wstat { path, .. } => path,
        Message::Write { run, .. } => run.path,
    }
}

fn truncation(f: Record, mtime: u32, cvers: u32, muid: Place) -> Edit
    ensures { result ≡ edit_if (applies (judge_truncate f)) (Truncated (truncated mtime cvers muid f)) }
{
    if tree::applies(tree::judge_truncate(f)) {
        Edit::Truncated(tree::truncated(f, mtime, cvers, muid))
    } else {
        Edit::Ignored
    }
}

fn write(f: Record, run: Extent, mtime: u32, muid: Place, cvers: u32) -> Edit
    requires { run.offset + run.count < 2 ^ 32 }
    ensures { result ≡ edit_if (applies (judge_write f cvers)) (Written run (written run mtime muid f)) }
{
    if tree::applies(tree::judge_write(f, cvers)) {
        Edit::Written(run, tree::written(f, run, mtime, muid))
    } else {
        Edit::Ignored
    }
}

// The fields of the message, each once.
fn restatement(
    f: Record,
    path: u32,
    name: Place,
    perm: u32,
    uid: Place,
    gid: Place,
    mtime: u32,
    muid: Place,
) -> Edit
    ensures { result ≡ edit_if (applies (judge_wstat path f name perm)) (Restated (restated name perm uid gid mtime muid f)) }
{
    if tree::applies(tree::judge_wstat(path, f, name, perm)) {
        Edit::Restated(tree::restated(f, name, perm, uid, gid, mtime, muid))
    } else {
        Edit::Ignored
    }
}

/// Where the file f of its path is there. Each kind has an answer of its own: what a message is is asked once.
// Hence each `return`: where the arm is a value the compiler builds the whole Edit first, and asks its kind again.
pub fn edit_of(m: Message, f: Record) -> Edit
    requires { Ranged m }
    ensures { result ≡ edit_of m f }
{
    match m {
        Message::Create { .. } => Edit::Ignored,
        Message::Remove { path: 0, .. } => Edit::Ignored,
        Message::Remove { .. } => Edit::Removed,
        Message::Truncate {
            mtime,
            cvers,
            muid,
            ..
        } => return truncation(f, mtime, cvers, muid),
        Message::Write {
            run,
            mtime,
            muid,
            cvers,
        } => return write(f, run, mtime, muid, cvers),
        Message::Wstat {
            path,
            name,
            uid,
            gid,
            muid,
            perm,
            mtime,
        } => return restatement(f, path, name, perm, uid, gid, mtime, muid),
    }
}

/// The record that a message makes where no file of its path is there, if it makes one.
pub fn made_by(m: Message) -> Option<Record>
    ensures { result ≡ newborn m }
{
    match m {
        Message::Create {
            parent,
            perm,
            path,
            mtime,
            cvers,
            name,
            uid,
            gid,
        } => Some(tree::created(parent, perm, path, mtime, cvers, name, uid, gid)),
        _ => None,
    }
}

/// What the parent takes of a remove.
pub fn stamped_by(m: Message, f: Record) -> Record
    ensures { result ≡ stamped_by m f }
{
    match m {
        Message::Remove { mtime, muid, .. } => tree::stamped(f, mtime, muid),
        _ => f,
    }
}
