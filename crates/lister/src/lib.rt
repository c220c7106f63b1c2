// The listing of a text, whole, in a lent buffer: the dump is read, mounted, and its lines are written one after another. What has no
// room is left out, so a caller looks once: a place below the buffer's end says that all stands.
#![tactic(auto)]

ghost use Rattle.std.specs.Prelude.{◌≡◌, [], map, ◌≤◌, length};
ghost use Rattle.base.specs.Choice.{if_eq};
ghost use Rattle.meaning.specs.Flash.{text as the_text};
ghost use Rattle.meaning.specs.Mount.{mount_of};
ghost use Rattle.extent.specs.Rows.{extent_of};
ghost use Rattle.label.specs.Lent.{lent_of};
ghost use Rattle.listing.specs.Lines.{extent_line, file_line};
ghost use Rattle.listing.specs.Listing.{extent_lines, file_lines, listed, listing as the_listing, mount_lines};
ghost use Rattle.listing.specs.Wrote.{Wrote};
ghost use Rattle.shown.specs.Shown.{mounted};

use label::Flash;
use meaning::{Extent, Record};
use shown::Shown;

// ---- a file's extents

// No From: neither type is of this crate.
fn extent_of(row: [u32; 4]) -> Extent
    ensures { result ≡ extent_of row }
{
    Extent {
        path: row[0],
        offset: row[1],
        count: row[2],
        address: row[3],
    }
}

// An extent's line, if it is one of the file's.
#[tactic(auto, using(listing::proofs::Ways::wrote_none), unfolding(base::specs::Choice::if_eq, base::specs::Choice::if_true))]
fn put_own(out: &mut [u8], at: usize, row: [u32; 4], path: u32) -> usize
    ensures { Wrote out.old at (if_eq (extent_of row).path path (extent_line (extent_of row)) []) out.new result }
{
    let e = extent_of(row);
    if e.path == path {
        listing::put_extent(out, at, e)
    } else {
        at
    }
}

fn put_extents(out: &mut [u8], at: usize, xs: &[[u32; 4]], path: u32) -> usize
    ensures { Wrote out.old at (extent_lines path (map extent_of xs.now)) out.new result }
{
    let mut to = at;
    for row in xs {
        to = put_own(out, to, *row, path);
    }
    to
}

// ---- the files

// A record's line. Its name's bytes stand in the contents, as far as these go.
fn put_named(out: &mut [u8], at: usize, f: Record, contents: &[u8]) -> usize
    ensures { Wrote out.old at (file_line f (the_text contents.now f.name)) out.new result }
{
    let from = (f.name.at as usize).min(contents.len());
    let rest = &contents[from..];
    let len = (f.name.len as usize).min(rest.len());
    listing::put_file(out, at, f, &rest[..len])
}

fn put_files(
    out: &mut [u8],
    at: usize,
    records: &[Record],
    xs: &[[u32; 4]],
    contents: &[u8],
) -> usize
    ensures { Wrote out.old at (file_lines contents.now (map extent_of xs.now) records.now) out.new result }
{
    let mut to = at;
    for f in records {
        let line = put_named(out, to, *f, contents);
        to = put_extents(out, line, xs, f.path);
    }
    to
}

// ---- the whole

// T, then the files. The rows past those of the mount are of no use.
fn put_mount(out: &mut [u8], at: usize, r: &Shown, rows: &[[u32; 4]], contents: &[u8]) -> usize
    requires { (r.now.files ≤ 256) × (r.now.files ≤ length r.now.records) × (r.now.extents ≤ length rows.now) }
    ensures { Wrote out.old at (mount_lines (mounted r.now rows.now) contents.now) out.new result }
{
    let records = &r.records[..r.files];
    let xs = &rows[..r.extents];
    let line = listing::put_total(
        out,
        at,
        r.files as u64,
        r.extents as u64,
        r.applied,
        r.ignored,
        r.insertion,
    );
    put_files(out, line, records, xs, contents)
}

/// The listing of a mount of the lent slices: its lines, or the line of its refusal.
pub fn put_listing(out: &mut [u8], at: usize, flash: &Flash) -> usize
    ensures { Wrote out.old at (the_listing (mount_of flash.now.geometry (lent_of flash.now)) flash.now.contents.now) out.new result }
{
    let mut rows = [[0u32; 4]; 1024];
    let mut r = Shown::none();
    match shown::show(flash, &mut rows, &mut r) {
        Ok(()) => put_mount(out, at, &r, &rows, flash.contents),
        Err(x) => listing::put_refusal(out, at, x),
    }
}

/// All that the listing program writes of a text whose first line has that number. A dump has at most 32 blocks and 32,768 content
/// bytes, so there is room for any.
pub fn list(text: &[u8], first: u32, out: &mut [u8]) -> usize
    ensures { Wrote out.old 0 (listed text.now first) out.new result }
{
    let mut tags = [0u8; 32];
    let mut paths = [0u64; 32];
    let mut contents = [0u8; 32768];
    match dump::parse_from(text, first, &mut tags, &mut paths, &mut contents) {
        Err(x) => listing::put_refusal(out, 0, x),
        Ok(d) => {
            let geometry = d.geometry;
            let n = usize::from(geometry.blocks);
            let bytes = n * label::block_size(geometry) as usize;
            let flash = Flash {
                geometry,
                tags: &tags[..n],
                paths: &paths[..n],
                contents: &contents[..bytes],
            };
            put_listing(out, 0, &flash)
        }
    }
}
