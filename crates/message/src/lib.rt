// Pages of the log: any bytes in, a message with the places of its strings, or that it has not its form, out. No string is copied.
#![tactic(auto)]

ghost use Rattle.std.specs.List.{fold, list_all};
ghost use Rattle.std.specs.Prelude.{true, ◌≡◌, ◌&&◌, ◌+◌, ◌-◌, ◌^◌, ◌≤◌, ◌<◌, eqb, length, get_or, take, drop};
ghost use Rattle.meaning.specs.Flash.{blank, block_size};
ghost use Rattle.meaning.specs.Message.{u16 as le16, u32 as le32, string, past, place_at, barred, dots, good_name, in_log, good_embedded, good_run, good_data, create_at, remove_at, truncate_at, write_at, wstat_at, typed, parse as the_parse};
ghost use Rattle.meaning.specs.Log.{embedded_limit};
ghost use Rattle.message.specs.Page.{page as the_page, plain, Ranged, Framed};

use meaning::{Address, Extent, Geometry, Message, Parsed, Place};

// ---- numbers: bytes past the end read as 0

/// The byte at a place. The result's type tells that it is below 256.
pub fn byte_at(s: &[u8], i: usize) -> u8
    ensures { result ≡ get_or s.now i 0 }
{
    s.get(i).copied().unwrap_or(0)
}

// One test for all the bytes, so that they can be read at once. Two functions: one over `[u8; N]` needs a loop for what is past the end.
#[tactic(auto, unfolding(meaning::specs::Message::u16))]
pub fn u16_at(s: &[u8], i: usize) -> u16
    requires { i < 2 ^ 40 }
    ensures { result ≡ le16 s.now i }
{
    if i + 1 < s.len() {
        return u16::from_le_bytes([s[i], s[i + 1]]);
    }
    u16::from_le_bytes([byte_at(s, i), byte_at(s, i + 1)])
}

#[tactic(auto, unfolding(meaning::specs::Message::u16, meaning::specs::Message::u32))]
pub fn u32_at(s: &[u8], i: usize) -> u32
    requires { i < 2 ^ 32 }
    ensures { result ≡ le32 s.now i }
{
    if i + 3 < s.len() {
        return u32::from_le_bytes([s[i], s[i + 1], s[i + 2], s[i + 3]]);
    }
    u32::from_le_bytes([
        byte_at(s, i),
        byte_at(s, i + 1),
        byte_at(s, i + 2),
        byte_at(s, i + 3),
    ])
}

/// The place past a string.
#[tactic(auto, unfolding(meaning::specs::Message::past))]
pub fn past_at(s: &[u8], i: usize) -> usize
    requires { i < 2 ^ 32 }
    ensures { (result ≡ past s.now i) × (result ≤ i + 65537) }
{
    i + 2 + usize::from(u16_at(s, i))
}

// ---- pages and names

// The scan has no way out but its end, so the compiler takes many bytes at a time.
fn all_ones(page: &[u8]) -> bool
    ensures { result ≡ fold (λ same b. same && eqb b 0xff) true page.now }
{
    page.iter().fold(true, |same, b| same & (*b == 0xff))
}

/// Whether a page is blank. A written page is told by its first byte.
#[tactic(auto, using(crate::proofs::Scanned::blank_first, crate::proofs::Scanned::blank_fold))]
pub fn is_blank(page: &[u8]) -> bool
    ensures { result ≡ blank page.now }
{
    match page {
        [first, ..] if *first != 0xff => false,
        _ => all_ones(page),
    }
}

#[tactic(auto, unfolding(crate::specs::Page::plain, meaning::specs::Message::barred))]
fn is_plain(c: u8) -> bool
    ensures { result ≡ plain c }
{
    c != b'/' && c != 0
}

fn all_plain(name: &[u8]) -> bool
    ensures { result ≡ list_all plain name.now }
{
    name.iter().all(|c| is_plain(*c))
}

#[tactic(auto, unfolding(meaning::specs::Message::dots))]
fn is_dots(name: &[u8]) -> bool
    ensures { result ≡ dots name.now }
{
    matches!(name, [b'.'] | [b'.', b'.'])
}

/// Whether these bytes may be a file's name.
#[tactic(auto, using(crate::proofs::Scanned::all_same), unfolding(meaning::specs::Message::good_name, crate::specs::Page::plain))]
pub fn is_good_name(name: &[u8]) -> bool
    ensures { result ≡ good_name name.now }
{
    name.len() <= 255 && all_plain(name) && !is_dots(name)
}

// ---- a write's data

// Bit 31 of an address: it is one in the log.
const IN_LOG: u32 = 2147483648;

// The greatest number that a label may give.
const LAST_NUMBER: u32 = 4095;

// The greatest offset of a byte of a file.
const LAST_BYTE: u64 = 4294967295;

// In the 32 bits of an address; label's is in 64, and this crate needs no label.
#[tactic(auto, unfolding(meaning::specs::Flash::block_size))]
fn block_size(g: Geometry) -> u32
    ensures { result ≡ block_size g }
{
    u32::from(g.size) * u32::from(g.pages)
}

// Data in the message itself: `from` is the address of its first byte, and `held` how many bytes there are.
#[tactic(auto, unfolding(meaning::specs::Message::good_embedded))]
fn good_embedded(limit: u32, count: u16, flashaddr: u32, from: u64, held: usize) -> bool
    requires { 2 ^ 31 ≤ flashaddr }
    ensures { result ≡ good_embedded limit count flashaddr from held }
{
    u32::from(count) <= limit && u64::from(flashaddr - IN_LOG) == from && held == usize::from(count)
}

// Data in a data block.
#[tactic(auto, unfolding(meaning::specs::Message::good_run))]
fn good_run(g: Geometry, count: u16, flashaddr: u32, held: usize) -> bool
    requires { 0 < block_size g }
    ensures { result ≡ good_run g count flashaddr held }
{
    let size = block_size(g);
    let end = u64::from(flashaddr % size) + u64::from(count);
    held == 0 && flashaddr / size <= LAST_NUMBER && end <= u64::from(size)
}

#[tactic(auto, unfolding(meaning::specs::Message::good_data, meaning::specs::Message::in_log, base::specs::Choice::if_true))]
fn good_data(limit: u32, g: Geometry, count: u16, flashaddr: u32, from: u64, held: usize) -> bool
    requires { 0 < block_size g }
    ensures { result ≡ good_data limit g count flashaddr from held }
{
    if flashaddr < IN_LOG {
        good_run(g, count, flashaddr, held)
    } else {
        good_embedded(limit, count, flashaddr, from, held)
    }
}

// ---- the message of each type

// A message's payload: from `at` to where it must end, on a page that begins at `begin` in the contents. `path` is the message's.
#[derive(Clone, Copy)]
struct Payload<'a> {
    page: &'a [u8],
    begin: u32,
    path: u32,
    at: usize,
    end: usize,
    ghost framed: { Framed page.now begin at end },
}

impl Payload<'_> {
    #[tactic(auto, unfolding(meaning::specs::Message::place_at))]
    fn place_at(&self, i: usize) -> Place
        requires { self.now.begin + i + 2 < 2 ^ 32 }
        ensures { result ≡ place_at (the_page self.now.page.now 0 self.now.begin) i }
    {
        Place {
            at: self.begin + i as u32 + 2,
            len: u32::from(u16_at(self.page, i)),
        }
    }

    // The string at a place as a file's name.
    #[tactic(auto, unfolding(meaning::specs::Message::string, meaning::specs::Message::past))]
    fn good_name_at(&self, i: usize) -> bool
        requires { past self.now.page.now i ≤ length self.now.page.now }
        ensures { result ≡ good_name (string self.now.page.now i) }
    {
        let a = i + 2;
        let e = past_at(self.page, i);
        is_good_name(&self.page[a..e])
    }

    #[tactic(auto, unfolding(meaning::specs::Message::remove_at, meaning::specs::Message::past, base::specs::Choice::bind, base::specs::Choice::if_eq, base::specs::Choice::if_true))]
    fn remove(&self) -> Parsed
        ensures { result ≡ remove_at (the_page self.now.page.now 0 self.now.begin) self.now.path self.now.at self.now.end }
    {
        let muid = self.at + 4;
        if past_at(self.page, muid) != self.end {
            return Parsed::Malformed;
        }
        let m = Message::Remove {
            path: self.path,
            mtime: u32_at(self.page, self.at),
            muid: self.place_at(muid),
        };
        Parsed::Found(m, self.end)
    }

    #[tactic(auto, unfolding(meaning::specs::Message::truncate_at, meaning::specs::Message::past, base::specs::Choice::bind, base::specs::Choice::if_eq, base::specs::Choice::if_true))]
    fn truncate(&self) -> Parsed
        ensures { result ≡ truncate_at (the_page self.now.page.now 0 self.now.begin) self.now.path self.now.at self.now.end }
    {
        let muid = self.at + 8;
        if past_at(self.page, muid) != self.end {
            return Parsed::Malformed;
        }
        let m = Message::Truncate {
            path: self.path,
            mtime: u32_at(self.page, self.at),
            cvers: u32_at(self.page, self.at + 4),
            muid: self.place_at(muid),
        };
        Parsed::Found(m, self.end)
    }

    #[tactic(auto, unfolding(meaning::specs::Message::create_at, meaning::specs::Message::well_formed, meaning::specs::Message::past, base::specs::Choice::bind, base::specs::Choice::if_eq, base::specs::Choice::if_true))]
    fn create(&self) -> Parsed
        ensures { result ≡ create_at (the_page self.now.page.now 0 self.now.begin) self.now.path self.now.at self.now.end }
    {
        let s = self.page;
        let name = self.at + 16;
        let uid = past_at(s, name);
        let gid = past_at(s, uid);
        if past_at(s, gid) != self.end || u16_at(s, name) == 0 || !self.good_name_at(name) {
            return Parsed::Malformed;
        }
        let m = Message::Create {
            parent: self.path,
            perm: u32_at(s, self.at),
            path: u32_at(s, self.at + 4),
            mtime: u32_at(s, self.at + 8),
            cvers: u32_at(s, self.at + 12),
            name: self.place_at(name),
            uid: self.place_at(uid),
            gid: self.place_at(gid),
        };
        Parsed::Found(m, self.end)
    }

    #[tactic(auto, unfolding(meaning::specs::Message::write_at, meaning::specs::Message::well_formed, meaning::specs::Message::past, meaning::specs::Message::place_at, base::specs::Choice::bind, base::specs::Choice::if_eq, base::specs::Choice::if_less, base::specs::Choice::if_true))]
    fn write(&self, limit: u32, g: Geometry, address: Address) -> Parsed
        requires { (0 < block_size g) × (address.0 < 2 ^ 31) }
        ensures { result ≡ write_at limit g (the_page self.now.page.now address.0 self.now.begin) self.now.path self.now.at self.now.end }
    {
        let s = self.page;
        let offset = u32_at(s, self.at);
        let count = u16_at(s, self.at + 4);
        let muid = self.at + 14;
        let flash = past_at(s, muid);
        let flashaddr = u32_at(s, flash);
        let held = flash + 4;
        if self.end < held || count == 0 || u64::from(offset) + u64::from(count) > LAST_BYTE {
            return Parsed::Malformed;
        }
        let from = address.0 + held as u64;
        if !good_data(limit, g, count, flashaddr, from, self.end - held) {
            return Parsed::Malformed;
        }
        let run = Extent {
            path: self.path,
            offset,
            count: u32::from(count),
            address: flashaddr,
        };
        let m = Message::Write {
            run,
            mtime: u32_at(s, self.at + 6),
            cvers: u32_at(s, self.at + 10),
            muid: self.place_at(muid),
        };
        Parsed::Found(m, self.end)
    }

    #[tactic(auto, unfolding(meaning::specs::Message::wstat_at, meaning::specs::Message::well_formed, meaning::specs::Message::past, base::specs::Choice::bind, base::specs::Choice::if_eq, base::specs::Choice::if_true))]
    fn wstat(&self) -> Parsed
        ensures { result ≡ wstat_at (the_page self.now.page.now 0 self.now.begin) self.now.path self.now.at self.now.end }
    {
        let s = self.page;
        let name = self.at;
        let perm = past_at(s, name);
        let uid = perm + 4;
        let gid = past_at(s, uid);
        let mtime = past_at(s, gid);
        let muid = mtime + 4;
        if past_at(s, muid) != self.end || !self.good_name_at(name) {
            return Parsed::Malformed;
        }
        let m = Message::Wstat {
            path: self.path,
            name: self.place_at(name),
            perm: u32_at(s, perm),
            uid: self.place_at(uid),
            gid: self.place_at(gid),
            mtime: u32_at(s, mtime),
            muid: self.place_at(muid),
        };
        Parsed::Found(m, self.end)
    }
}

// ---- a message

/// What stands at a position of a log page. `address` is the page's logical address, `begin` its place in the contents, and `limit`
/// the greatest count of embedded data.
#[tactic(auto, using(crate::proofs::Anywhere::anywhere), unfolding(meaning::specs::Message::parse, meaning::specs::Message::typed, base::specs::Choice::bind, base::specs::Choice::if_eq, base::specs::Choice::if_less, base::specs::Choice::if_true))]
pub fn parse(
    limit: u32,
    g: Geometry,
    page: &[u8],
    address: Address,
    begin: u32,
    at: usize,
) -> Parsed
    requires { Ranged g page.now address.0 begin }
    ensures { result ≡ the_parse limit g (the_page page.now address.0 begin) at }
{
    if page.len() <= at || page[at] == b'e' {
        return Parsed::End;
    }
    let size = usize::from(u16_at(page, at + 1));
    let end = at + 3 + size;
    if size < 4 || page.len() < end {
        return Parsed::Malformed;
    }
    let payload = Payload {
        page,
        begin,
        path: u32_at(page, at + 3),
        at: at + 7,
        end,
    };
    match page[at] {
        b'c' => payload.create(),
        b'r' => payload.remove(),
        b't' => payload.truncate(),
        b'w' => payload.write(limit, g, address),
        b'W' => payload.wstat(),
        _ => Parsed::Malformed,
    }
}

const EMBEDDED: u32 = 128;

/// The greatest count of embedded data.
#[tactic(auto, unfolding(meaning::specs::Log::embedded_limit))]
pub fn embedded_limit(g: Geometry) -> u32
    ensures { result ≡ embedded_limit g }
{
    EMBEDDED
}
