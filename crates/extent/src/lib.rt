// Extents in rows [path, offset, count, address] of a lent slice, by path and then offset. On the line of all files' bytes
// (start = path × 2^32 + offset) runs of two files never meet, so no function asks whose row it looks at.
#![tactic(auto)]

ghost use Rattle.std.specs.List.{copy_within};
ghost use Rattle.std.specs.Prelude.{◌≡◌, [], ◌∷◌, ◌++◌, map, ◌+◌, ◌-◌, ◌*◌, ◌^◌, ◌≤◌, ◌<◌, length, take, drop};
ghost use Rattle.meaning.specs.Replay.{start, end, front, back, before, after, lay};
ghost use Rattle.extent.specs.Halves.{by_halves};
ghost use Rattle.extent.specs.Rows.{extent_of, row_of, runs, Sound, Within, Layable, Split, Low, Ranged, pieces, around};

use std::ops::Range;

#[tactic(auto, unfolding(meaning::specs::Replay::start, meaning::specs::Replay::spot))]
pub fn start_of(r: [u32; 4]) -> u64
    ensures { result ≡ start (extent_of r) }
{
    u64::from(r[0]) * 4294967296 + u64::from(r[1])
}

#[tactic(auto, unfolding(meaning::specs::Replay::end, meaning::specs::Replay::start, meaning::specs::Replay::spot))]
pub fn end_of(r: [u32; 4]) -> u64
    requires { Sound r }
    ensures { result ≡ end (extent_of r) }
{
    u64::from(r[0]) * 4294967296 + (u64::from(r[1]) + u64::from(r[2]))
}

// What stands of a run before s.
#[tactic(auto, using(crate::proofs::Rows::row_back), unfolding(meaning::specs::Replay::front))]
fn front_of(r: [u32; 4], s: u64) -> [u32; 4]
    requires { Sound r × (start (extent_of r) ≤ s) }
    ensures { result ≡ row_of (front s (extent_of r)) }
{
    let d = s - start_of(r);
    if d < u64::from(r[2]) {
        [r[0], r[1], d as u32, r[3]]
    } else {
        r
    }
}

// What stands of a run from e on: its address goes on with its offset.
#[tactic(auto, unfolding(meaning::specs::Replay::back, meaning::specs::Replay::end))]
fn back_of(r: [u32; 4], e: u64) -> [u32; 4]
    requires { Sound r × (start (extent_of r) ≤ e) × (e < end (extent_of r)) }
    ensures { result ≡ row_of (back e (extent_of r)) }
{
    let d = (e - start_of(r)) as u32;
    [r[0], r[1] + d, r[2] - d, r[3] + d]
}

/// The search by halves among the first n rows, in whatever order they are. Each turn halves what is left whatever the row says, so
/// no turn waits on a guess.
// Not std's partition_point: of rows in disorder that promises nothing.
pub fn by_halves(rows: &[[u32; 4]], n: usize, key: u64) -> usize
    requires { n ≤ length rows.now }
    ensures { (result ≡ by_halves rows.now n key) × (result ≤ n) }
{
    // A `while`: what is left is halved, and not counted.
    let mut lo: usize = 0;
    let mut left = n;
    while 0 < left {
        let half = left - left / 2;
        let r = rows[lo + half - 1];
        left -= half;
        if start_of(r) < key {
            lo += half;
        }
    }
    lo
}

// How many of the first n rows start before key. Most runs are laid past the last row, so that one is looked at first.
pub fn below(rows: &[[u32; 4]], n: usize, key: u64) -> usize
    requires { (n ≤ length rows.now) × Within 0 (2 ^ 64) (take n rows.now) }
    ensures { Split key (runs rows.now n) result }
{
    if 0 < n && start_of(rows[n - 1]) < key {
        n
    } else {
        by_halves(rows, n, key)
    }
}

// The same where the first p do: a run ends a few rows after it starts, so one by one.
fn below_from(rows: &[[u32; 4]], n: usize, p: usize, key: u64) -> usize
    requires { Low rows.now n p key }
    ensures { Split key (runs rows.now n) result × (p ≤ result) }
{
    for k in p..n {
        if key <= start_of(rows[k]) {
            return k;
        }
    }
    n
}

// What stands from e on of q rows that start before e: a part of the last of them, if anything.
fn last_piece(rows: &[[u32; 4]], q: usize, e: u64) -> Option<[u32; 4]>
    requires { Low rows.now q q e }
    ensures { pieces result ≡ map row_of (after e (runs rows.now q)) }
{
    if q == 0 {
        return None;
    }
    let r = rows[q - 1];
    if e < end_of(r) {
        Some(back_of(r, e))
    } else {
        None
    }
}

// Cuts what stands from s on off p rows that start before s: off the last of them, if anything.
fn cut(rows: &mut [[u32; 4]], p: usize, s: u64)
    requires { Low rows.old p p s }
    ensures { rows.new ≡ map row_of (before s (runs rows.old p)) ++ drop p rows.old }
{
    if 0 < p {
        rows[p - 1] = front_of(rows[p - 1], s);
    }
}

// The rows that start from s on and before e.
fn range(rows: &[[u32; 4]], n: usize, s: u64, e: u64) -> Range<usize>
    requires { (n ≤ length rows.now) × Within 0 (2 ^ 64) (take n rows.now) × (s ≤ e) }
    ensures { Ranged s e (runs rows.now n) result × (result.end ≤ n) }
{
    let start = below(rows, n, s);
    let end = below_from(rows, n, start, e);
    start..end
}

// Rows q up to n go to m. Where they stand there already they are left alone: a run that takes the place of one moves nothing.
fn move_rows(rows: &mut [[u32; 4]], n: usize, q: usize, m: usize)
    requires { (q ≤ n) × (n ≤ length rows.old) × (m + (n - q) ≤ length rows.old) }
    ensures { rows.new ≡ copy_within rows.old q n m }
{
    if q != m {
        rows.copy_within(q..n, m);
    }
}

// The rows of the range make room for v and, if there is one, for w; what stands before is cut at s. Gives how many rows there
// are now.
fn put_run(
    rows: &mut [[u32; 4]],
    n: usize,
    g: Range<usize>,
    s: u64,
    v: [u32; 4],
    w: Option<[u32; 4]>,
) -> usize
    requires { Low rows.old n g.start s × (g.start ≤ g.end) × (g.end ≤ n) × (n + 2 ≤ length rows.old) }
    ensures { (result ≡ length (around s v (pieces w) rows.old n g)) × (rows.new ≡ around s v (pieces w) rows.old n g ++ drop result rows.old) }
{
    let m = g.start + 1 + usize::from(w.is_some());
    cut(rows, g.start, s);
    move_rows(rows, n, g.end, m);
    if let Some(w) = w {
        rows[g.start + 1] = w;
    }
    rows[g.start] = v;
    m + (n - g.end)
}

// "the run is laid over older extents, which keep what stands before and after it". Gives how many rows there are now.
pub fn lay_over(rows: &mut [[u32; 4]], n: usize, v: [u32; 4]) -> usize
    requires { Layable rows.old n v }
    ensures { (result ≡ length (lay (extent_of v) (runs rows.old n))) × (rows.new ≡ map row_of (lay (extent_of v) (runs rows.old n)) ++ drop result rows.old) }
{
    let s = start_of(v);
    let e = end_of(v);
    let g = range(rows, n, s, e);
    let w = last_piece(rows, g.end, e);
    put_run(rows, n, g, s, v, w)
}
