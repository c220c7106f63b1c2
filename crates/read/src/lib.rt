// The bytes of a file, run by run: first zeros, then each extent's run over them. The extents are rows, sorted and disjoint, so the
// first run is found by halves, and a block is looked for once a piece, never once a byte.
#![tactic(auto)]

ghost use Rattle.std.specs.Prelude.{◌≡◌, map, ◌+◌, ◌-◌, ◌*◌, ◌%◌, ◌^◌, ◌≤◌, ◌<◌, min, length, replicate};
ghost use Rattle.label.specs.Lent.{image, labels};
ghost use Rattle.label.specs.Search.{found};
ghost use Rattle.meaning.specs.Flash.{block_size};
ghost use Rattle.meaning.specs.Mount.{byte_at};
ghost use Rattle.meaning.specs.Replay.{spot as the_spot};
ghost use Rattle.meaning.specs.Services.{copied};
ghost use Rattle.extent.specs.Rows.{extent_of, Sound, Within};
ghost use Rattle.flash_log.specs.Cursor.{Planned};
ghost use Rattle.read.specs.Pieces.{bare as the_bare, drawn, in_block, larger as the_larger, place_at, stretch};

use label::Flash;
use meaning::{Address, Block, Geometry, Plan};

// Bit 31 of an address: it is one in the log.
const IN_LOG: u32 = 2147483648;

/// Byte i of file p on the line of all files' bytes.
pub fn spot(p: u32, i: u32) -> u64
    ensures { result ≡ the_spot p i }
{
    u64::from(p) * 4294967296 + u64::from(i)
}

// ---- one piece

/// An address without the bit that tells a log block from a data block.
#[tactic(auto, unfolding(crate::specs::Pieces::bare, base::specs::Choice::if_less, base::specs::Choice::if_true))]
pub fn bare(a: u32) -> Address
    ensures { result.0 ≡ the_bare a }
{
    if a < IN_LOG {
        Address(u64::from(a))
    } else {
        Address(u64::from(a - IN_LOG))
    }
}

/// The block that an address names: a log block by the plan, else a data block.
pub fn place_at(flash: &Flash, p: Plan, a: u32) -> Option<Block>
    requires { Planned flash.now p }
    ensures { result ≡ found (place_at flash.now.geometry (labels flash.now) a) }
{
    let n = label::number_at(flash.geometry, bare(a));
    if IN_LOG <= a {
        plan::find_log(flash, p, n)
    } else {
        flash.find_data(n)
    }
}

// How many of n bytes from an address on stand in its block.
#[tactic(auto, unfolding(crate::specs::Pieces::in_block))]
fn in_block(g: Geometry, a: u32, n: usize) -> usize
    ensures { result ≡ in_block g a n }
{
    let offset = label::offset_at(g, bare(a));
    let left = label::block_size(g).saturating_sub(offset);
    n.min(left as usize)
}

// The bytes from an address on, no further than its block. An absent block gives zeros.
#[tactic(auto, using(crate::proofs::Address::pieces))]
fn copy_piece(flash: &Flash, p: Plan, a: u32, part: &mut [u8])
    requires { Planned flash.now p × (length part.old ≤ block_size flash.now.geometry - the_bare a % block_size flash.now.geometry) }
    ensures { part.new ≡ stretch (byte_at flash.now.geometry (image flash.now)) a (length part.old) }
{
    let Some(b) = place_at(flash, p, a) else {
        part.fill(0);
        return;
    };
    let offset = label::offset_at(flash.geometry, bare(a)) as usize;
    let begin = b.0 * label::block_size(flash.geometry) as usize + offset;
    let n = part.len();
    part.copy_from_slice(&flash.contents[begin..begin + n]);
}

// ---- one run

// The bytes from an address on, piece by piece: each ends with its block or with the run. A `while`, for a piece is as long as its
// block has bytes left.
fn copy_run(flash: &Flash, p: Plan, a: u32, part: &mut [u8])
    requires { Planned flash.now p × (a + length part.old < 2 ^ 32) }
    ensures { part.new ≡ stretch (byte_at flash.now.geometry (image flash.now)) a (length part.old) }
{
    let n = part.len();
    let mut i: usize = 0;
    while i < n {
        let here = a + i as u32;
        let end = i + in_block(flash.geometry, here, n - i);
        copy_piece(flash, p, here, &mut part[i..end]);
        i = end;
    }
}

// The run of a row, as far as it lies within n bytes from key on, into the buffer that holds those.
fn draw(flash: &Flash, p: Plan, row: [u32; 4], key: u64, n: usize, buffer: &mut [u8])
    requires { Planned flash.now p × Sound row × (n ≤ length buffer.old) × (key + n < 2 ^ 64) }
    ensures { buffer.new ≡ drawn flash.now.geometry (image flash.now) key n (extent_of row) buffer.old }
{
    let s = extent::start_of(row);
    let e = extent::end_of(row);
    let from = key.max(s);
    let to = (key + n as u64).min(e);
    if from < to {
        let a = row[3] + (from - s) as u32;
        let begin = (from - key) as usize;
        let end = (to - key) as usize;
        copy_run(flash, p, a, &mut buffer[begin..end]);
    }
}

// ---- the file

/// n bytes of a file from byte x on; "the buffer's remainder is unchanged". The row before the first that starts past x may reach
/// over it; rows that start past the last byte are not looked at.
pub fn copy(flash: &Flash, p: Plan, xs: &[[u32; 4]], path: u32, x: u32, n: usize, buffer: &mut [u8])
    requires { Planned flash.now p × Within 0 (2 ^ 64) xs.now × (n ≤ length buffer.old) × (x + n < 2 ^ 32) }
    ensures { buffer.new ≡ copied flash.now.geometry (image flash.now) (map extent_of xs.now) path x buffer.old n }
{
    buffer[0..n].fill(0);
    let key = spot(path, x);
    let rows = xs.len();
    let low = extent::below(xs, rows, key);
    let last = extent::below(xs, rows, key + n as u64);
    for j in low.saturating_sub(1)..last {
        draw(flash, p, xs[j], key, n, buffer);
    }
}
