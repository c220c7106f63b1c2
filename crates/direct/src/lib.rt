// Reads on what a mount has answered. A mount costs as much as the log; its rows say where each file's bytes stand. So the host asks
// once where each run begins in the contents, and reads from there, with no label search.
#![tactic(auto)]

ghost use Rattle.std.specs.List.{list_all};
ghost use Rattle.std.specs.Prelude.{◌≡◌, ◌+◌, ◌-◌, ◌^◌, ◌≤◌, ◌<◌, ◌++◌, length, drop};
ghost use Rattle.label.specs.Lent.{labels, lent_of};
ghost use Rattle.meaning.specs.Answer.{answer_by};
ghost use Rattle.meaning.specs.Replay.{spot as the_spot};
ghost use Rattle.extent.specs.Rows.{extent_of};
ghost use Rattle.flash_log.specs.Cursor.{Planned};
ghost use Rattle.file.specs.File.{answer};
ghost use Rattle.direct.specs.Begins.{begin as the_begin, begin_of, begins_of, begun, places_after, stands};
ghost use Rattle.direct.specs.Direct.{answered, buffer_with, drawn_from, laid, put as the_put};

use label::Flash;
use meaning::{Plan, Record, Refusal};

// ---- where the runs begin

// Where a run begins in the contents; none where no block has the whole of it. A run never leaves its block, so one place a run is
// enough.
fn begin_of(flash: &Flash, p: Plan, row: [u32; 4]) -> Option<u32>
    requires { Planned flash.now p }
    ensures { result ≡ the_begin (begin_of flash.now.geometry (labels flash.now) (extent_of row)) }
{
    let [_, _, count, address] = row;
    let b = read::place_at(flash, p, address)?;
    let offset = label::offset_at(flash.geometry, read::bare(address));
    let size = label::block_size(flash.geometry);
    if size < offset + u64::from(count) {
        return None;
    }
    Some((b.0 as u64 * size + offset) as u32)
}

#[tactic(auto, using(crate::proofs::Begun::is_whole))]
fn is_whole(flash: &Flash, p: Plan, row: [u32; 4]) -> bool
    requires { Planned flash.now p }
    ensures { result ≡ stands flash.now.geometry (labels flash.now) row }
{
    begin_of(flash, p, row).is_some()
}

// Before the first place is stored: a refusal changes nothing.
fn are_whole(flash: &Flash, p: Plan, xs: &[[u32; 4]]) -> bool
    requires { Planned flash.now p }
    ensures { result ≡ list_all (stands flash.now.geometry (labels flash.now)) xs.now }
{
    xs.iter().all(|row| is_whole(flash, p, *row))
}

#[tactic(auto, using(crate::proofs::Places::stores))]
fn put_places(flash: &Flash, p: Plan, xs: &[[u32; 4]], places: &mut [u32])
    requires { Planned flash.now p × (length xs.now ≤ length places.old) }
    ensures { places.new ≡ begins_of flash.now.geometry (labels flash.now) xs.now ++ drop (length xs.now) places.old }
{
    for (k, row) in xs.iter().enumerate() {
        places[k] = begin_of(flash, p, *row).unwrap_or(0);
    }
}

/// Where the bytes of each extent begin in the contents. Refusals 1 to 6 as the mount gives them; GEOMETRY too where there are fewer
/// places than rows, or a row is not of an extent whose whole run stands in one block that is there.
pub fn begins(flash: &Flash, xs: &[[u32; 4]], places: &mut [u32]) -> Result<(), Refusal>
    ensures xs_value { answer_by (λ done. begins_of flash.now.geometry (labels flash.now) xs.now) result ≡ begun flash.now.geometry (lent_of flash.now) xs.now (length places.old) }
    ensures places_after { places.new ≡ places_after flash.now.geometry (lent_of flash.now) xs.now places.old }
{
    if places.len() < xs.len() {
        return Err(Refusal::Geometry);
    }
    let p = plan::select(flash)?;
    if !are_whole(flash, p, xs) {
        return Err(Refusal::Geometry);
    }
    put_places(flash, p, xs, places);
    Ok(())
}

// ---- a read from there

// What a run that starts at s, and at begin in the contents, has from one byte up to another, into the buffer that holds the bytes
// from key on. Where that reaches past the contents, nothing is put: no mount has such a run.
fn put(contents: &[u8], key: u64, s: u64, begin: u32, from: u64, to: u64, buffer: &mut [u8])
    requires { (key ≤ from) × (s ≤ from) × (from < to) × (to - s < 2 ^ 32) × (to - key ≤ length buffer.old) }
    ensures { buffer.new ≡ the_put contents.now key s begin from to buffer.old }
{
    let past = u64::from(begin) + (to - s);
    if past <= contents.len() as u64 {
        let low = (from - key) as usize;
        let high = (to - key) as usize;
        let end = past as usize;
        let at = end - (high - low);
        buffer[low..high].copy_from_slice(&contents[at..end]);
    }
}

// The run of a row, as far as it lies within n bytes from key on.
fn lay(contents: &[u8], row: [u32; 4], begin: u32, key: u64, n: usize, buffer: &mut [u8])
    requires { (n ≤ length buffer.old) × (key + n < 2 ^ 64) }
    ensures { buffer.new ≡ laid contents.now key n (extent_of row) begin buffer.old }
{
    let s = extent::start_of(row);
    let top = key + n as u64;
    let from = key.max(s);
    let to = s + u64::from(row[2]).min(top.saturating_sub(s));
    if from < to {
        put(contents, key, s, begin, from, to, buffer);
    }
}

// n bytes of a file from byte x on. The row before the first that starts past x may reach over it; rows that start past the last
// byte are not looked at.
fn draw(
    contents: &[u8],
    path: u32,
    xs: &[[u32; 4]],
    begins: &[u32],
    x: u32,
    n: usize,
    buffer: &mut [u8],
)
    requires { (length xs.now ≤ length begins.now) × (n ≤ length buffer.old) × (x + n < 2 ^ 32) }
    ensures { buffer.new ≡ drawn_from contents.now xs.now begins.now (the_spot path x) n buffer.old }
{
    buffer[0..n].fill(0);
    let key = read::spot(path, x);
    let low = extent::by_halves(xs, xs.len(), key);
    let last = extent::by_halves(xs, xs.len(), key + n as u64);
    for j in low.saturating_sub(1)..last {
        lay(contents, xs[j], begins[j], key, n, buffer);
    }
}

/// The read of a file whose record and extents a mount has shown, and whose extents begin where `begins` has said. Whatever is lent
/// back, nothing outside the slices is read or written; what a mount has said gives the read of document 01.
pub fn read(
    contents: &[u8],
    f: Record,
    xs: &[[u32; 4]],
    begins: &[u32],
    x: u64,
    buffer: &mut [u8],
) -> Result<usize, Refusal>
    ensures result_value { answer result ≡ answered f (length xs.now) (length begins.now) x (length buffer.old) }
    ensures buffer_after { buffer.new ≡ buffer_with contents.now f xs.now begins.now x buffer.old }
{
    if begins.len() < xs.len() {
        return Err(Refusal::Geometry);
    }
    if tree::is_dir(f.perm) {
        return Err(Refusal::NoFile(u64::from(f.path)));
    }
    let n = file::count(buffer.len(), f.length, x);
    if 0 < n {
        draw(contents, f.path, xs, begins, x as u32, n, buffer);
    }
    Ok(n)
}
