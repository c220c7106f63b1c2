// The words of document 01 that code and definitions share. No function stands here: what each word means is said in specs/,
// to be read in the order of specs/Lib.antt.
#![tactic(auto)]

/// Page size in bytes, pages a block, blocks.
#[repr(C)]
#[derive(Clone, Copy, PartialEq, Eq)]
pub struct Geometry {
    pub size: u16,
    pub pages: u16,
    pub blocks: u16,
}

/// A logical block number: what a label says. It leads to a place only through the label search.
#[derive(Clone, Copy, PartialEq, Eq)]
pub struct Number(pub u32);

/// A logical byte address: (number × pages per block + page) × page size + offset.
#[derive(Clone, Copy, PartialEq, Eq)]
pub struct Address(pub u64);

/// A physical block index: a place in the lent slices, never a number.
#[derive(Clone, Copy, PartialEq, Eq)]
pub struct Block(pub usize);

/// What a tag byte means.
#[derive(Clone, Copy, PartialEq, Eq)]
pub enum Tag {
    Free,
    Boot,
    Log,
    Data,
    Unknown,
}

/// The log as the labels plan it: the active log's generation and first number, and how many blocks of the swept and of the
/// active log are replayed.
#[derive(Clone, Copy, PartialEq, Eq)]
pub struct Plan {
    pub generation: u8,
    pub start: Number,
    pub swept: usize,
    pub active: usize,
}

/// Where a string's bytes stand: the index of the first in the lent contents, and how many.
#[repr(C)]
#[derive(Clone, Copy, PartialEq, Eq)]
pub struct Place {
    pub at: u32,
    pub len: u32,
}

/// One file.
#[repr(C)]
#[derive(Clone, Copy, PartialEq, Eq)]
pub struct Record {
    pub path: u32,
    pub parent: u32,
    pub perm: u32,
    pub length: u32,
    pub cvers: u32,
    pub mtime: u32,
    pub name: Place,
    pub uid: Place,
    pub gid: Place,
    pub muid: Place,
}

/// A run of a file's bytes. The address is the message's flashaddr: bit 31 is set where the bytes stand in the log.
#[repr(C)]
#[derive(Clone, Copy, PartialEq, Eq)]
pub struct Extent {
    pub path: u32,
    pub offset: u32,
    pub count: u32,
    pub address: u32,
}

/// A message of the log. The fields are in such an order that every place stands at a multiple of its size: a message then stays
/// in registers.
#[derive(Clone, Copy, PartialEq, Eq)]
pub enum Message {
    Create {
        parent: u32,
        perm: u32,
        path: u32,
        mtime: u32,
        cvers: u32,
        name: Place,
        uid: Place,
        gid: Place,
    },
    Remove {
        path: u32,
        muid: Place,
        mtime: u32,
    },
    Truncate {
        path: u32,
        mtime: u32,
        cvers: u32,
        muid: Place,
    },
    Write {
        run: Extent,
        mtime: u32,
        muid: Place,
        cvers: u32,
    },
    Wstat {
        path: u32,
        name: Place,
        uid: Place,
        gid: Place,
        muid: Place,
        perm: u32,
        mtime: u32,
    },
}

/// What stands at a position of a log page: nothing that has its form, the end of the page's messages, or a message and the
/// position past it.
#[derive(Clone, Copy, PartialEq, Eq)]
pub enum Parsed {
    Malformed,
    End,
    Found(Message, usize),
}

/// What replay says of a message: applied, or the first test of document 01 that it failed, in the order written there.
#[derive(Clone, Copy, PartialEq, Eq)]
pub enum Verdict {
    Applied,
    NoParent,
    ParentNoDirectory,
    PathTaken,
    NoFile,
    TheRoot,
    NotEmpty,
    Directory,
    OtherVersion,
    DirectoryBit,
    RootName,
}

/// A step of a settle or a reclaim.
#[derive(Clone, Copy, PartialEq, Eq)]
pub enum Step {
    Erase(Block),
    PageWrite { from: Block, to: Block, page: usize },
    LabelWrite { block: Block, tag: u8, path: u64 },
}

/// A refusal, with the place that it gives.
#[derive(Clone, Copy, PartialEq, Eq)]
pub enum Refusal {
    Geometry,
    Tag(Block),
    Path(Block),
    Copies(Block),
    Boot,
    Log,
    Page(Address),
    Message(Address),
    Full(Address),
    Data(u32),
    Unsettled,
    NoBlock(Number),
    NoRoom(usize),
    NoFile(u64),
    Dump(u64),
}
