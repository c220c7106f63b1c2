// The extents after a message: the rows of the file that it speaks of, changed.
ghost use Rattle.std.specs.Prelude.{◌≡◌, ◌≤◌, length, take};
ghost use Rattle.meaning.specs.Replay.{lay, others};
ghost use Rattle.extent.specs.Rows.{Fit};
ghost use Rattle.runs.specs.Runs.{gather, Live};
ghost use Rattle.change.specs.Room.{Stands, Some, Turns};

use meaning::Extent;
use runs::Span;

/// Where free rows begin, and how many extents there are.
#[derive(Clone, Copy)]
pub struct Room {
    pub bump: usize,
    pub used: usize,
}

/// A run is laid over the older extents of its file. The rows are lent, and the slots are in the tree that owns the records: two lenders,
/// so no struct holds both.
pub fn lay_run(
    spans: &mut [Span],
    rows: &mut [[u32; 4]],
    scratch: &mut [[u32; 4]],
    slots: &[u32; 256],
    n: usize,
    room: Room,
    s: usize,
    run: Extent,
) -> Room
    requires { Live slots.now n × (1024 ≤ length scratch.old) × Stands spans.old rows.old room (take n slots.now) s × Some spans.old rows.old (take n slots.now) s run.path × Fit run }
    ensures { Turns spans.old rows.old spans.new rows.new result (take n slots.now) s run.path (lay run (gather spans.old rows.old (take n slots.now))) }
{
    let bump = runs::make_room(spans, rows, scratch, slots, n, room.bump, s);
    let had = runs::many_at(spans, s);
    runs::lay_at(
        spans,
        rows,
        s,
        [run.path, run.offset, run.count, run.address],
    );
    let has = runs::many_at(spans, s);
    Room {
        bump,
        used: room.used + has - had,
    }
}

/// The file has no extents then.
pub fn clear(
    spans: &mut [Span],
    rows: &[[u32; 4]],
    slots: &[u32; 256],
    n: usize,
    room: Room,
    s: usize,
    path: u32,
) -> Room
    requires { Stands spans.old rows.now room (take n slots.now) s × Some spans.old rows.now (take n slots.now) s path }
    ensures { Turns spans.old rows.now spans.new rows.now result (take n slots.now) s path (others path (gather spans.old rows.now (take n slots.now))) }
{
    let had = runs::many_at(spans, s);
    runs::clear(spans, s);
    Room {
        bump: room.bump,
        used: room.used - had,
    }
}
