// Replay: the log told to the tree, message by message. One loop owns the records and changes them in place; the extents stand
// in rows that are lent. No message copies either.
#![tactic(auto)]

ghost use Rattle.std.specs.Prelude.{◌≡◌, ◌≤◌, length};
ghost use Rattle.meaning.specs.Log.{log_of, replayed};
ghost use Rattle.meaning.specs.Replay.{replay as the_replay};
ghost use Rattle.label.specs.Lent.{image};
ghost use Rattle.flash_log.specs.Cursor.{Planned};
ghost use Rattle.runs.specs.Runs.{capacity};
ghost use Rattle.replay.specs.Replay.{answer_of, WholeHeld};

use change::{Edit, Room};
use flash_log::Turn;
use label::Flash;
use meaning::{Plan, Refusal};
use runs::Span;
use tree::Tree;

mod near;

#[derive(Clone, Copy)]
pub struct Replayed {
    pub tree: Tree,
    pub room: Room,
    pub applied: u64,
    pub ignored: u64,
}

/// The tree after the log, or 7, 8 or 9. The rows of its files stand in spans and rows; what scratch holds is of no use.
pub fn replay(
    flash: &Flash,
    p: Plan,
    spans: &mut [Span],
    rows: &mut [[u32; 4]],
    scratch: &mut [[u32; 4]],
) -> Result<Replayed, Refusal>
    requires { Planned flash.now p × (length spans.old ≡ 256) × (length rows.old ≡ capacity) × (1024 ≤ length scratch.old) }
    ensures rows_after { answer_of result spans.new rows.new ≡ the_replay (log_of flash.now.geometry (replayed flash.now.geometry (image flash.now))) }
    ensures whole_held { WholeHeld result spans.new rows.new }
{
    // A copy: through the lent one its fields are loaded again for each message.
    let flash = *flash;
    let mut t = tree::bare();
    let root = t.slots[0] as usize;
    runs::fresh(spans, root);
    let mut room = Room { bump: 0, used: 0 };
    let mut applied: u64 = 0;
    let mut ignored: u64 = 0;
    // The slot of a path, by its low bits, and where a slot stood last: guesses that are tested before they are used.
    let mut near = [0u8; 1024];
    let mut place = [0u8; 256];
    let Some(first) = flash_log::first(&flash, p) else {
        return Ok(Replayed {
            tree: t,
            room,
            applied,
            ignored,
        });
    };
    let mut c = first;
    loop {
        match flash_log::next(&flash, p, c) {
            Turn::End => {
                return Ok(Replayed {
                    tree: t,
                    room,
                    applied,
                    ignored,
                });
            }
            Turn::Refused(r) => return Err(r),
            Turn::On(d) => c = d,
            Turn::Told(d, m, a) => {
                c = d;
                let n = t.count;
                let path = change::path_of(m);
                let low = (path % 1024) as usize;
                match near::find(&t.keys, n, path, &place, near[low]) {
                    Ok(i) => {
                        let s = t.slots[i] as usize;
                        near[low] = s as u8;
                        place[s] = i as u8;
                        let f = t.records[s];
                        match change::edit_of(m, f) {
                            Edit::Ignored => {
                                ignored += 1; // "A message failing its test is ignored and counted."
                            }
                            Edit::Written(run, q) => {
                                room = change::lay_run(
                                    spans, rows, scratch, &t.slots, n, room, s, run,
                                );
                                if 1024 < room.used {
                                    return Err(Refusal::Full(a));
                                }
                                t.records[s] = q;
                                applied += 1;
                                continue; // Most messages: with a way of its own to the head the compiler keeps more in registers.
                            }
                            Edit::Truncated(q) => {
                                room = change::clear(spans, rows, &t.slots, n, room, s, path);
                                t.records[s] = q;
                                applied += 1;
                            }
                            Edit::Restated(q) => {
                                t.records[s] = q;
                                applied += 1;
                            }
                            Edit::Removed => {
                                if tree::is_dir(f.perm) && !tree::is_empty(&t, f.path) {
                                    ignored += 1;
                                    continue;
                                }
                                room = change::clear(spans, rows, &t.slots, n, room, s, path);
                                tree::close_at(&mut t.keys, n, i);
                                near::close_slot(&mut t.slots, &mut place, n, i);
                                t.count = n - 1;
                                applied += 1;
                                let Ok(j) = tree::find(&t.keys, n - 1, f.parent) else {
                                    continue;
                                };
                                let h = t.slots[j] as usize;
                                t.records[h] = change::stamped_by(m, t.records[h]);
                            }
                        }
                    }
                    Err(j) => {
                        let Some(q) = change::made_by(m) else {
                            ignored += 1;
                            continue;
                        };
                        let Ok(k) = tree::find(&t.keys, n, q.parent) else {
                            ignored += 1;
                            continue;
                        };
                        let h = t.slots[k] as usize;
                        if !tree::is_dir(t.records[h].perm) {
                            ignored += 1;
                            continue;
                        }
                        if n == 256 {
                            return Err(Refusal::Full(a));
                        }
                        tree::open_at(&mut t.keys, n, j, q.path);
                        let s = near::open_slot(&mut t.slots, &mut place, n, j) as usize;
                        near[low] = s as u8;
                        runs::fresh(spans, s);
                        t.records[s] = q;
                        t.count = n + 1;
                        applied += 1;
                    }
                }
            }
        }
    }
}
