// A dump, as the listing program reads it. The whole text is looked at first, and the lent slices are filled after, so a refusal leaves
// them as they were. The text is one dump; the number of its first line is told, so a dump may be part of a longer input. The slices that
// it fills stay apart: of what a struct of `&mut` slices leaves, nothing is tied to the slices lent (tried in step).
#![tactic(auto, unfolding(base::specs::Choice::if_less, base::specs::Choice::if_true, base::specs::Choice::bind, text::specs::Piece::on_read, crate::specs::Dump::on_ok, crate::specs::Lines::right_sizes, crate::specs::Lines::small, crate::specs::Lines::first_at, crate::specs::Lines::label_at, crate::specs::Lines::page_at, crate::specs::Lines::places, crate::specs::Dump::dump_of, crate::specs::Given::answer, crate::specs::Given::tags_after, crate::specs::Given::paths_after, crate::specs::Given::contents_after))]

ghost use Rattle.std.specs.Prelude.{◌≡◌, ◌+◌, ◌*◌, ◌≤◌, length};
ghost use Rattle.text.specs.Put.{put};
ghost use Rattle.dump.specs.Lines.{first_at, label_at, page_at, places as the_places, right_sizes, sizes};
ghost use Rattle.dump.specs.Dump.{dump_of, label_lines, page_lines};
ghost use Rattle.dump.specs.Given.{answer, bytes_from, contents_after, labels_from, pages_from, paths_after, tags_after, the_path, the_tag};

use meaning::{Geometry, Refusal};
use text::Field;

/// What a B line says, and the place past it.
#[derive(Clone, Copy)]
struct Label {
    tag: u8,
    path: u64,
    next: usize,
}

/// What a P line says: the page's place, counted over all blocks, where its bytes stand, how many, and the place past the line.
#[derive(Clone, Copy)]
struct Page {
    place: u32,
    from: usize,
    count: u64,
    next: usize,
}

/// What a dump says: its sizes, and where its B lines and its P lines begin.
#[derive(Clone, Copy)]
pub struct Dump {
    pub geometry: Geometry,
    pub labels: usize,
    pub pages: usize,
}

// ---- the G line

/// Right sizes have at most 16 bits.
#[tactic(auto, unfolding(base::specs::Choice::if_true, crate::specs::Lines::right_sizes), using(crate::proofs::Sizes::wide_size, crate::proofs::Sizes::wide_pages, crate::proofs::Sizes::wide_blocks))]
fn right_sizes(size: u64, pages: u64, blocks: u64) -> Option<Geometry>
    ensures { result ≡ right_sizes (sizes size pages blocks) }
{
    let g = Geometry {
        size: u16::try_from(size).ok()?,
        pages: u16::try_from(pages).ok()?,
        blocks: u16::try_from(blocks).ok()?,
    };
    if label::good_geometry(g) {
        Some(g)
    } else {
        None
    }
}

/// The sizes of a G line, which has that number, and the place past it.
fn first_at(s: &[u8], at: usize, line: u64) -> Result<Field<Geometry>, Refusal>
    ensures { result ≡ first_at s.now at line }
{
    let bad = Refusal::Dump(line);
    let i = text::head_at(s, at, b'G').ok_or(bad)?;
    let size = text::number_at(s, i, text::TAB).ok_or(bad)?;
    let pages = text::number_at(s, size.next, text::TAB).ok_or(bad)?;
    let blocks = text::number_at(s, pages.next, text::NEWLINE).ok_or(bad)?;
    let g = right_sizes(size.value, pages.value, blocks.value).ok_or(Refusal::Geometry)?;
    if 32768 < u64::from(g.blocks) * label::block_size(g) {
        return Err(bad);
    }
    Ok(Field {
        value: g,
        next: blocks.next,
    })
}

// ---- a B line and a P line

fn label_at(s: &[u8], at: usize) -> Option<Label>
    ensures { result ≡ label_at s.now at }
{
    let i = text::head_at(s, at, b'B')?;
    let tag = text::byte_at(s, i, text::TAB)?;
    let path = text::number_at(s, tag.next, text::NEWLINE)?;
    Some(Label {
        tag: tag.value,
        path: path.value,
        next: path.next,
    })
}

fn place_of(block: u16, page: u16, pages: u16) -> u32
    ensures { result ≡ block * pages + page }
{
    u32::from(block) * u32::from(pages) + u32::from(page)
}

fn places(g: Geometry) -> u32
    ensures { result ≡ the_places g }
{
    u32::from(g.blocks) * u32::from(g.pages)
}

fn page_at(s: &[u8], at: usize, g: Geometry) -> Option<Page>
    ensures { result ≡ page_at s.now at g }
{
    let i = text::head_at(s, at, b'P')?;
    let block = text::number_at(s, i, text::TAB)?;
    let page = text::number_at(s, block.next, text::TAB)?;
    if u64::from(g.blocks) <= block.value || u64::from(g.pages) <= page.value {
        return None;
    }
    let run = text::run_at(s, page.next, g.size)?;
    Some(Page {
        place: place_of(block.value as u16, page.value as u16, g.pages),
        from: page.next,
        count: run.value,
        next: run.next,
    })
}

// ---- the lines, one after another: the place past them, or the first bad one; `first` is the number of the G line

#[tactic(auto, unfolding(text::specs::Piece::on_read, crate::specs::Dump::label_step), using(crate::proofs::Loops::label_turn, crate::proofs::Loops::label_out))]
fn label_lines(s: &[u8], at: usize, blocks: u16, first: u32) -> Result<usize, Refusal>
    ensures { result ≡ label_lines s.now blocks at (first + 1) }
{
    let start = u64::from(first) + 1;
    let mut i = at;
    for line in start..start + u64::from(blocks) {
        i = label_at(s, i).ok_or(Refusal::Dump(line))?.next;
    }
    Ok(i)
}

#[tactic(auto, unfolding(base::specs::Choice::if_less, base::specs::Choice::if_true, text::specs::Piece::on_read, crate::specs::Dump::page_step), using(crate::proofs::Loops::page_turn, crate::proofs::Loops::page_out))]
fn page_lines(s: &[u8], at: usize, g: Geometry, first: u32) -> Result<usize, Refusal>
    ensures { result ≡ page_lines s.now g (the_places g + 1) at (first + 1 + g.blocks) 0 }
{
    let begin = u64::from(first) + 1 + u64::from(g.blocks);
    let end = begin + u64::from(places(g)) + 1;
    let mut i = at;
    let mut floor: u64 = 0;
    for line in begin..end {
        if s.len() <= i {
            return Ok(i);
        }
        let page = page_at(s, i, g).ok_or(Refusal::Dump(line))?;
        if u64::from(page.place) < floor {
            return Err(Refusal::Dump(line));
        }
        i = page.next;
        floor = u64::from(page.place) + 1;
    }
    Err(Refusal::Dump(end))
}

/// What a dump says, or its refusal, GEOMETRY or DUMP. Nothing is lent to it but the text.
pub fn check(s: &[u8], first: u32) -> Result<Dump, Refusal>
    ensures { result ≡ dump_of s.now first }
{
    let sizes = first_at(s, 0, u64::from(first))?;
    let pages = label_lines(s, sizes.next, sizes.value.blocks, first)?;
    page_lines(s, pages, sizes.value, first)?;
    Ok(Dump {
        geometry: sizes.value,
        labels: sizes.next,
        pages,
    })
}

// ---- what a good dump puts into the lent slices

#[tactic(auto, unfolding(text::specs::Piece::on_read), using(crate::proofs::Loops::labels_turn, crate::proofs::Loops::labels_out, text::proofs::Puts::put_in, crate::proofs::Loops::put_none))]
fn put_labels(s: &[u8], at: usize, n: u16, tags: &mut [u8], paths: &mut [u64])
    requires n_in_bounds { n ≤ length tags.old }
    requires n_in_bounds_2 { n ≤ length paths.old }
    ensures tags_after { tags.new ≡ put tags.old 0 (labels_from the_tag s.now n at) }
    ensures paths_after { paths.new ≡ put paths.old 0 (labels_from the_path s.now n at) }
{
    let mut i = at;
    for k in 0..usize::from(n) {
        let Some(label) = label_at(s, i) else {
            return;
        };
        tags[k] = label.tag;
        paths[k] = label.path;
        i = label.next;
    }
}

/// What has no room is left out.
#[tactic(auto, unfolding(text::specs::Piece::on_read), using(crate::proofs::Loops::bytes_turn, crate::proofs::Loops::bytes_out, text::proofs::Puts::put_in, text::proofs::Puts::put_out, crate::proofs::Loops::put_none))]
fn put_bytes(s: &[u8], at: usize, count: u64, l: &mut [u8], from: usize)
    ensures { l.new ≡ put l.old from (bytes_from s.now count at) }
{
    let end = from.saturating_add(count as usize).min(l.len());
    let mut i = at;
    for k in from..end {
        let Some(v) = text::hex_at(s, i) else {
            return;
        };
        l[k] = v;
        i = text::past(s, text::past(s, i));
    }
}

fn start_of(place: u32, size: u16) -> usize
    ensures { result ≡ place * size }
{
    place as usize * usize::from(size)
}

#[tactic(auto, unfolding(base::specs::Choice::if_less, base::specs::Choice::if_true, text::specs::Piece::on_read, crate::specs::Given::pages_step), using(crate::proofs::Loops::pages_turn, crate::proofs::Loops::pages_out))]
fn put_pages(s: &[u8], at: usize, g: Geometry, l: &mut [u8])
    ensures { l.new ≡ pages_from s.now g (the_places g + 1) at l.old }
{
    let mut i = at;
    for _page in 0..=places(g) {
        if s.len() <= i {
            return;
        }
        let Some(page) = page_at(s, i, g) else {
            return;
        };
        put_bytes(s, page.from, page.count, l, start_of(page.place, g.size));
        i = page.next;
    }
}

/// Reads a dump whose first line has the number `first` into the lent slices. They may be longer than the dump asks: what lies past its
/// blocks and bytes is as it was. On a refusal all is as it was; slices too short for the sizes are GEOMETRY.
pub fn parse_from(
    s: &[u8],
    first: u32,
    tags: &mut [u8],
    paths: &mut [u64],
    contents: &mut [u8],
) -> Result<Dump, Refusal>
    ensures value { result ≡ answer s.now first (length tags.old) (length paths.old) (length contents.old) }
    ensures tags_after { tags.new ≡ tags_after result s.now tags.old }
    ensures paths_after { paths.new ≡ paths_after result s.now paths.old }
    ensures contents_after { contents.new ≡ contents_after result s.now contents.old }
{
    let dump = check(s, first)?;
    let g = dump.geometry;
    let n = usize::from(g.blocks);
    let bytes = n * label::block_size(g) as usize;
    if tags.len() < n || paths.len() < n || contents.len() < bytes {
        return Err(Refusal::Geometry);
    }
    put_labels(s, dump.labels, g.blocks, tags, paths);
    // "bytes not given are 0xff": all are, before any is given
    contents[..bytes].fill(0xff);
    put_pages(s, dump.pages, g, contents);
    Ok(dump)
}

/// Reads a dump that is the whole input.
pub fn parse(
    s: &[u8],
    tags: &mut [u8],
    paths: &mut [u64],
    contents: &mut [u8],
) -> Result<Dump, Refusal>
    ensures value { result ≡ answer s.now 1 (length tags.old) (length paths.old) (length contents.old) }
    ensures tags_after { tags.new ≡ tags_after result s.now tags.old }
    ensures paths_after { paths.new ≡ paths_after result s.now paths.old }
    ensures contents_after { contents.new ≡ contents_after result s.now contents.old }
{
    parse_from(s, 1, tags, paths, contents)
}
