// Labels: what one says, and which block stands for which number. Tags are compared by what they mean, never by their bytes. Every
// function is total: past the end of a slice stands 0.
#![tactic(auto)]

ghost use Rattle.std.specs.Prelude.{◌≡◌, ◌/◌, ◌%◌, ◌<◌, min, ◌&&◌, eqb, leb, length, get_or};
ghost use Rattle.base.specs.Scan.{any};
ghost use Rattle.meaning.specs.Flash.{address_of, bad_path, bad_tag, block_size, byte_of, copy_of, follows, good_geometry, good_pages, good_size, r_of, same_tag, successor, tag_of};
ghost use Rattle.meaning.specs.Labels.{counts as the_counts, find as the_find, find_data, is, older};
ghost use Rattle.label.specs.Lent.{blocks, labels, view_of};
ghost use Rattle.label.specs.Search.{bears as the_bears, found, labelled, newer_path, Next, Noted, Olders};

use meaning::{Address, Block, Geometry, Number, Tag};

/// A copy generation or a log generation, counted mod 4.
#[derive(Clone, Copy, PartialEq, Eq)]
pub struct Generation(pub u8);

impl Generation {
    pub fn successor(self) -> Generation
        ensures { result.0 ≡ successor self.0 }
    {
        Generation(((self.0 as u16 + 1) % 4) as u8)
    }

    /// "A copy with generation g1 is newer than g0 exactly when g1 = (g0 + 1) mod 4."
    #[tactic(auto, unfolding(meaning::specs::Flash::follows))]
    pub fn newer(self, g0: Generation) -> bool
        ensures { result ≡ follows self.0 g0.0 }
    {
        self == g0.successor()
    }
}

/// The byte that is written for a tag. A function and no `From`: Tag is a word of the crate meaning, which has definitions alone.
pub fn byte_of(t: Tag) -> u8
    ensures { result ≡ byte_of t }
{
    match t {
        Tag::Free => Label::FREE,
        Tag::Boot => Label::BOOT,
        Tag::Log => Label::LOG,
        Tag::Data => Label::DATA,
        Tag::Unknown => 0,
    }
}

#[derive(Clone, Copy)]
pub struct Label {
    pub tag: u8,
    pub path: u64,
}

// "A path is below 2^34"
const PATHS: u64 = 17179869184;

impl Label {
    pub const FREE: u8 = 0xff;

    pub const BOOT: u8 = 0x01;

    pub const LOG: u8 = 0x06;

    pub const DATA: u8 = 0x18;

    /// The only reading of a tag byte.
    pub fn means(self) -> Tag
        ensures { result ≡ tag_of self.tag }
    {
        match self.tag {
            Label::FREE => Tag::Free,
            Label::BOOT => Tag::Boot,
            Label::LOG => Tag::Log,
            Label::DATA => Tag::Data,
            _ => Tag::Unknown,
        }
    }

    pub fn copy(self) -> Generation
        ensures { result.0 ≡ copy_of self.path }
    {
        Generation((self.path % 4) as u8)
    }

    pub fn r(self) -> u64
        ensures { result ≡ r_of self.path }
    {
        self.path / 4
    }

    /// The path of this block's newer copy.
    pub fn newer_path(self) -> u64
        ensures { result ≡ newer_path self.path }
    {
        let g = self.copy();
        let next = g.successor();
        self.path / 4 * 4 + next.0 as u64
    }

    /// TAG: "a tag that is none of the four".
    pub fn bad_tag(self) -> bool
        ensures { result ≡ bad_tag (tag_of self.tag) }
    {
        self.means() == Tag::Unknown
    }

    /// PATH: "path or number too large, not free". A free block's path is not looked at.
    pub fn bad_path(self) -> bool
        ensures { result ≡ bad_path (tag_of self.tag) self.path }
    {
        match self.means() {
            Tag::Free => false,
            Tag::Log => PATHS <= self.path || 4095 < self.path / 4 / 4,
            _ => PATHS <= self.path || 4095 < self.path / 4,
        }
    }
}

// ---- geometry and addresses

fn good_size(size: u16) -> bool
    ensures { result ≡ good_size size }
{
    matches!(size, 256 | 512 | 1024 | 2048)
}

fn good_pages(pages: u16) -> bool
    ensures { result ≡ good_pages pages }
{
    matches!(pages, 4 | 8 | 16 | 32)
}

fn good_blocks(blocks: u16) -> bool
    ensures { result ≡ (leb 1 blocks && leb blocks 1024) }
{
    matches!(blocks, 1..=1024)
}

/// The sizes that a flash may have.
pub fn good_geometry(g: Geometry) -> bool
    ensures { result ≡ good_geometry g }
{
    good_size(g.size) && good_pages(g.pages) && good_blocks(g.blocks)
}

/// Bytes a block.
pub fn block_size(g: Geometry) -> u64
    ensures { result ≡ block_size g }
{
    g.size as u64 * g.pages as u64
}

/// "(number × pages per block + page) × page size + offset". The sizes have 16 bits and a number 32, so it cannot wrap.
pub fn address_of(g: Geometry, n: Number, page: u16, offset: u16) -> Address
    ensures { result.0 ≡ address_of g n.0 page offset }
{
    let pages = n.0 as u64 * g.pages as u64 + page as u64;
    Address(pages * g.size as u64 + offset as u64)
}

/// The number of the block that an address names. Past all numbers it is the last, which no block has.
pub fn number_at(g: Geometry, a: Address) -> Number
    ensures { result.0 ≡ min (a.0 / block_size g) 4294967295 }
{
    let size = block_size(g);
    if size == 0 {
        return Number(0);
    }
    Number((a.0 / size).min(4294967295) as u32)
}

/// Where in its block an address lies.
pub fn offset_at(g: Geometry, a: Address) -> u64
    ensures { result ≡ a.0 % block_size g }
{
    let size = block_size(g);
    if size == 0 {
        return a.0;
    }
    a.0 % size
}

// ---- the label search

// Whether a path is there at all. The scan has no way out but its end, so the compiler takes several paths at a time.
fn has_path(paths: &[u64], path: u64) -> bool
    ensures { result ≡ any (length paths.now) (λ i. eqb (get_or paths.now i 0) path) }
{
    let mut hit = false;
    for p in paths {
        hit |= *p == path;
    }
    hit
}

// The low bits of a path, as a place among 1024.
fn low_bits(path: u64) -> usize
    ensures { (result ≡ path % 1024) × (result < 1024) }
{
    (path % 1024) as usize
}

/// A mark at the low bits of each path.
pub fn note_paths(paths: &[u64]) -> [bool; 1024]
    ensures { Noted paths.now (length paths.now) result }
{
    let mut marks = [false; 1024];
    for path in paths {
        marks[low_bits(*path)] = true;
    }
    marks
}

// The first place from `from` on whose path is of r, or one past all paths.
fn next_of(paths: &[u64], r: u64, from: usize) -> usize
    ensures { Next paths.now r from result }
{
    for i in from..paths.len() {
        if paths[i] / 4 == r {
            return i;
        }
    }
    from.max(paths.len())
}

/// The flash and its labels as the host lends them: its sizes; tags (a byte each) and paths, with one place a block; and the bytes.
#[derive(Clone, Copy)]
pub struct Flash<'a> {
    pub geometry: Geometry,
    pub tags: &'a [u8],
    pub paths: &'a [u64],
    pub contents: &'a [u8],
}

impl Flash<'_> {
    // ---- one place

    pub fn label_at(&self, b: Block) -> Label
        ensures { (result.tag ≡ get_or self.now.tags.now b.0 0) × (result.path ≡ get_or self.now.paths.now b.0 0) }
    {
        Label {
            tag: self.tags.get(b.0).copied().unwrap_or(0),
            path: self.paths.get(b.0).copied().unwrap_or(0),
        }
    }

    /// What the tag of block b means.
    pub fn tag_at(&self, b: Block) -> Tag
        ensures { result ≡ (labels self.now).tag b.0 }
    {
        self.label_at(b).means()
    }

    pub fn path_at(&self, b: Block) -> u64
        ensures { result ≡ (labels self.now).path b.0 }
    {
        self.label_at(b).path
    }

    /// Whether block b is of tag t.
    pub fn is_tag(&self, t: Tag, b: Block) -> bool
        ensures { result ≡ same_tag ((labels self.now).tag b.0) t }
    {
        self.tag_at(b) == t
    }

    /// Whether block b is of tag t and r. The numbers are compared first: they differ oftener.
    pub fn bears(&self, t: Tag, r: u64, b: Block) -> bool
        ensures { result ≡ the_bears (labels self.now) t r b.0 }
    {
        self.path_at(b) / 4 == r && self.is_tag(t, b)
    }

    fn is_labelled(&self, t: Tag, path: u64, b: Block) -> bool
        ensures { result ≡ labelled (labels self.now) t path b.0 }
    {
        self.path_at(b) == path && self.is_tag(t, b)
    }

    fn scan_labels(&self, t: Tag, path: u64) -> bool
        ensures { result ≡ any (blocks self.now) (labelled (labels self.now) t path) }
    {
        for i in 0..self.tags.len() {
            if self.is_labelled(t, path, Block(i)) {
                return true;
            }
        }
        false
    }

    // Few blocks have a newer copy, so the paths alone are looked at first.
    fn has_label(&self, t: Tag, path: u64) -> bool
        ensures { result ≡ any (blocks self.now) (labelled (labels self.now) t path) }
    {
        (self.paths.len() < self.tags.len() || has_path(self.paths, path))
            && self.scan_labels(t, path)
    }

    /// "Two blocks of equal tag and r resolve to the newer": whether block b is the other. The newer copy's whole label is known, so
    /// one scan looks for it.
    pub fn is_older(&self, b: Block) -> bool
        ensures { result ≡ older (blocks self.now) (labels self.now) b.0 }
    {
        let own = self.label_at(b);
        let t = own.means();
        t != Tag::Free && self.has_label(t, own.newer_path())
    }

    // The newer copy's path has its mark, so for most blocks there is no scan.
    fn is_older_noted(&self, marks: &[bool; 1024], b: Block) -> bool
        requires { Noted self.now.paths.now (length self.now.paths.now) marks.now }
        ensures { result ≡ older (blocks self.now) (labels self.now) b.0 }
    {
        if self.tags.len() <= self.paths.len() {
            let low = low_bits(self.label_at(b).newer_path());
            if !marks[low] {
                return false;
            }
        }
        self.is_older(b)
    }

    /// Which of the first 1024 blocks are older copies.
    pub fn olders(&self) -> [bool; 1024]
        ensures { Olders (blocks self.now) (labels self.now) (blocks self.now) result }
    {
        let marks = note_paths(self.paths);
        let mut flags = [false; 1024];
        for i in 0..self.tags.len().min(1024) {
            flags[i] = self.is_older_noted(&marks, Block(i));
        }
        flags
    }

    /// Whether block b counts among the blocks of tag t. The scan for a newer copy comes last.
    pub fn counts(&self, t: Tag, b: Block) -> bool
        ensures { result ≡ the_counts (blocks self.now) (labels self.now) t b.0 }
    {
        b.0 < self.tags.len() && self.is_tag(t, b) && !self.is_older(b)
    }

    /// `counts`, where the paths' marks are at hand.
    pub fn counts_noted(&self, marks: &[bool; 1024], t: Tag, b: Block) -> bool
        requires { Noted self.now.paths.now (length self.now.paths.now) marks.now }
        ensures { result ≡ the_counts (blocks self.now) (labels self.now) t b.0 }
    {
        b.0 < self.tags.len() && self.is_tag(t, b) && !self.is_older_noted(marks, b)
    }

    // Whether block b stands for r among the blocks of tag t.
    fn stands_for(&self, t: Tag, r: u64, b: Block) -> bool
        ensures { result ≡ is (view_of self.now t b.0) r }
    {
        self.path_at(b) / 4 == r && self.counts(t, b)
    }

    fn scan_blocks(&self, t: Tag, r: u64) -> Option<Block>
        ensures { result ≡ found (the_find (blocks self.now) (view_of self.now t) r) }
    {
        for i in 0..self.tags.len() {
            if self.stands_for(t, r, Block(i)) {
                return Some(Block(i));
            }
        }
        None
    }

    /// The block that stands for r among the blocks of tag t. Few blocks are of r, so the paths alone are looked at for the next.
    pub fn find(&self, t: Tag, r: u64) -> Option<Block>
        ensures { result ≡ found (the_find (blocks self.now) (view_of self.now t) r) }
    {
        if self.paths.len() < self.tags.len() {
            return self.scan_blocks(t, r);
        }
        // A `while`, for each turn goes to the next place that is of r.
        let mut i = next_of(self.paths, r, 0);
        while i < self.tags.len() {
            if self.counts(t, Block(i)) {
                return Some(Block(i));
            }
            i = next_of(self.paths, r, i + 1);
        }
        None
    }

    /// The block that is data block n.
    pub fn find_data(&self, n: Number) -> Option<Block>
        ensures { result ≡ found (find_data (blocks self.now) (labels self.now) n.0) }
    {
        self.find(Tag::Data, n.0 as u64)
    }
}
