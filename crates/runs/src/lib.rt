// The extents of all files. Rows stand by file, so that a run moves the rows of its own file alone: the span of slot s says
// where in the arena the rows of the file in slot s stand. Rows of the arena from bump on are free.
#![tactic(auto)]

ghost use Rattle.std.specs.Prelude.{◌≡◌, ◌+◌, ◌^◌, ◌≤◌, ◌<◌, length, take, drop, set};
ghost use Rattle.base.specs.Member.{In};
ghost use Rattle.runs.specs.Runs.{span_at, wanted, moved_to, vacant, with, rows_of, gather_rows, total, Distinct, Live, Placed, Open, spans_laid, rows_laid, put, Stand, Movable, closed, Roomed};

/// Where in the arena the rows of a file stand.
#[derive(Clone, Copy)]
pub struct Span {
    /// Where they begin.
    pub first: u32,
    /// How many they are.
    pub many: u32,
    /// For how many there is room.
    pub room: u32,
}

impl Span {
    /// No rows, and no room.
    pub const VACANT: Span = Span {
        first: 0,
        many: 0,
        room: 0,
    };
}

// How many rows the file in slot s has.
pub fn many_at(spans: &[Span], s: usize) -> usize
    requires { s < length spans.now }
    ensures { result ≡ (span_at spans.now s).many }
{
    spans[s].many as usize
}

// Lays a run over the rows of the file in slot s.
pub fn lay_at(spans: &mut [Span], rows: &mut [[u32; 4]], s: usize, v: [u32; 4])
    requires { Open spans.old rows.old s v }
    ensures { (spans.new ≡ spans_laid spans.old rows.old s v) × (rows.new ≡ rows_laid spans.old rows.old s v) }
{
    let p = spans[s];
    let first = p.first as usize;
    let end = first + p.room as usize;
    let n = extent::lay_over(&mut rows[first..end], p.many as usize, v);
    spans[s].many = n as u32;
}

// "no extents": the file keeps its room.
pub fn clear(spans: &mut [Span], s: usize)
    requires { s < length spans.old }
    ensures { spans.new ≡ set spans.old s (with (span_at spans.old s) 0) }
{
    spans[s].many = 0;
}

// A new file in slot s.
pub fn fresh(spans: &mut [Span], s: usize)
    requires { s < length spans.old }
    ensures { spans.new ≡ set spans.old s vacant }
{
    spans[s] = Span::VACANT;
}

// The rows of the first n of the slots, one after another at the front of out. Gives how many they are.
pub fn gathered(
    spans: &[Span],
    rows: &[[u32; 4]],
    slots: &[u32; 256],
    n: usize,
    out: &mut [[u32; 4]],
) -> usize
    requires { Live slots.now n × Stand spans.now rows.now (take n slots.now) × (total spans.now (take n slots.now) ≤ length out.old) }
    ensures { (result ≡ total spans.now (take n slots.now)) × (out.new ≡ put out.old 0 (gather_rows spans.now rows.now (take n slots.now))) }
{
    let mut at = 0;
    for s in &slots[..n] {
        let p = spans[*s as usize];
        let first = p.first as usize;
        let many = p.many as usize;
        out[at..at + many].copy_from_slice(&rows[first..first + many]);
        at += many;
    }
    at
}

// The spans of the first n of the slots, where their rows stand one after another at the front of the arena.
fn close_up(spans: &mut [Span], slots: &[u32; 256], n: usize)
    requires { Live slots.now n × Distinct (take n slots.now) × ((s : _) → In s (take n slots.now) → s < length spans.old) × (total spans.old (take n slots.now) ≤ 1024) }
    ensures { spans.new ≡ closed spans.old spans.old (take n slots.now) 0 }
{
    let mut at = 0;
    for s in &slots[..n] {
        let s = *s as usize;
        let many = spans[s].many;
        spans[s] = Span {
            first: at,
            many,
            room: many,
        };
        at += many;
    }
}

// All live rows go to the front of the arena, with no row between them. Gives how many they are.
fn pack(
    spans: &mut [Span],
    rows: &mut [[u32; 4]],
    scratch: &mut [[u32; 4]],
    slots: &[u32; 256],
    n: usize,
) -> usize
    requires { Live slots.now n × Distinct (take n slots.now) × Stand spans.old rows.old (take n slots.now) × (total spans.old (take n slots.now) ≤ 1024) × (1024 ≤ length scratch.old) × (1024 ≤ length rows.old) }
    ensures { (result ≡ total spans.old (take n slots.now)) × (spans.new ≡ closed spans.old spans.old (take n slots.now) 0) × (rows.new ≡ put rows.old 0 (gather_rows spans.old rows.old (take n slots.now))) }
{
    let m = gathered(spans, rows, slots, n, scratch);
    rows[..m].copy_from_slice(&scratch[..m]);
    close_up(spans, slots, n);
    m
}

// The rows of slot s go to bump, with room for as many more. Gives where free rows begin now.
fn move_part(spans: &mut [Span], rows: &mut [[u32; 4]], bump: usize, s: usize) -> usize
    requires { Movable spans.old rows.old bump s }
    ensures { (result ≡ bump + wanted (span_at spans.old s)) × (spans.new ≡ set spans.old s (moved_to bump (span_at spans.old s))) × (rows.new ≡ put rows.old bump (rows_of spans.old rows.old s)) }
{
    let p = spans[s];
    let first = p.first as usize;
    let many = p.many as usize;
    let room = 2 * many + 8;
    rows.copy_within(first..first + many, bump);
    spans[s] = Span {
        first: bump as u32,
        many: p.many,
        room: room as u32,
    };
    bump + room
}

// Slot s gets room for two rows more, if it has it not: what a run laid over its rows may add. Gives where free rows begin
// now. What scratch holds is of no use.
pub fn make_room(
    spans: &mut [Span],
    rows: &mut [[u32; 4]],
    scratch: &mut [[u32; 4]],
    slots: &[u32; 256],
    n: usize,
    bump: usize,
    s: usize,
) -> usize
    requires { Live slots.now n × (1024 ≤ length scratch.old) × Placed spans.old rows.old bump (take n slots.now) × In s (take n slots.now) }
    ensures { Roomed spans.old rows.old spans.new rows.new result (take n slots.now) s }
{
    let p = spans[s];
    let many = p.many as usize;
    if many + 1 < p.room as usize {
        return bump;
    }
    if bump + (2 * many + 8) < 4097 {
        return move_part(spans, rows, bump, s);
    }
    let b = pack(spans, rows, scratch, slots, n);
    move_part(spans, rows, b, s)
}
