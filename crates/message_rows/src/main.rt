// What the decoder says of each row of the input. A row is a page of 512 bytes as 1024 hex digits and a newline, so the rows stand
// at multiples of 1025 and no line has to be looked for. A blank page prints `blank`. Another prints a line for each message: its
// letter, its fields in the order of document 01 (a string as its place, first byte + count) and where it ends; then `end`, or
// `malformed` and the position.
#![tactic(auto)]

ghost use Rattle.std.specs.Prelude.{◌≡◌, ◌<◌, length};

use meaning::{Address, Extent, Geometry, Message, Parsed, Place};
use std::{fmt, io};

// ---- a row's bytes

// What is no hex digit reads as 0.
fn digit(c: u8) -> u8
    ensures { result < 16 }
{
    match c {
        b'0'..=b'9' => c - b'0',
        b'a'..=b'f' => c - b'a' + 10,
        _ => 0,
    }
}

fn page_of(row: &[u8]) -> [u8; 512]
    requires { length row.now ≡ 1025 }
{
    let mut page = [0u8; 512];
    for i in 0..512 {
        page[i] = 16 * digit(row[2 * i]) + digit(row[2 * i + 1]);
    }
    page
}

// ---- a message's fields

// A string's place.
#[derive(Clone, Copy, Drop)]
struct Shown(Place);

impl fmt::Display for Shown {
    fn fmt<W: fmt::Write>(&self, f: &mut fmt::Formatter<W>) -> fmt::Result {
        let at = self.0.at;
        let len = self.0.len;
        write!(f, "{at}+{len}")
    }
}

// The fields come one by one, as the match on a message takes them apart.
fn print_create(
    rt: &impl Print,
    parent: u32,
    perm: u32,
    path: u32,
    mtime: u32,
    cvers: u32,
    name: Place,
    uid: Place,
    gid: Place,
) -> io::Result<()> {
    print!(rt;
        "c\t{parent}\t{perm}\t{path}\t{mtime}\t{cvers}\t{}\t{}\t{}",
        Shown(name),
        Shown(uid),
        Shown(gid)
    )
}

fn print_write(
    rt: &impl Print,
    run: Extent,
    mtime: u32,
    cvers: u32,
    muid: Place,
) -> io::Result<()> {
    print!(rt;
        "w\t{}\t{}\t{}\t{mtime}\t{cvers}\t{}\t{}",
        run.path,
        run.offset,
        run.count,
        Shown(muid),
        run.address
    )
}

fn print_wstat(
    rt: &impl Print,
    path: u32,
    name: Place,
    perm: u32,
    uid: Place,
    gid: Place,
    mtime: u32,
    muid: Place,
) -> io::Result<()> {
    let name = Shown(name);
    let uid = Shown(uid);
    let gid = Shown(gid);
    let muid = Shown(muid);
    print!(rt; "W\t{path}\t{name}\t{perm}\t{uid}\t{gid}\t{mtime}\t{muid}")
}

fn print_message(rt: &impl Print, m: Message) -> io::Result<()> {
    match m {
        Message::Create {
            parent,
            perm,
            path,
            mtime,
            cvers,
            name,
            uid,
            gid,
        } => print_create(rt, parent, perm, path, mtime, cvers, name, uid, gid),
        Message::Remove { path, mtime, muid } => print!(rt; "r\t{path}\t{mtime}\t{}", Shown(muid)),
        Message::Truncate {
            path,
            mtime,
            cvers,
            muid,
        } => print!(rt; "t\t{path}\t{mtime}\t{cvers}\t{}", Shown(muid)),
        Message::Write {
            run,
            mtime,
            cvers,
            muid,
        } => print_write(rt, run, mtime, cvers, muid),
        Message::Wstat {
            path,
            name,
            perm,
            uid,
            gid,
            mtime,
            muid,
        } => print_wstat(rt, path, name, perm, uid, gid, mtime, muid),
    }
}

// ---- pages

// What stands at a position of a page that is block 0's first.
fn parse_at(page: &[u8; 512], at: usize) -> Parsed {
    let g = Geometry {
        size: 512,
        pages: 4,
        blocks: 1,
    };
    message::parse(message::embedded_limit(g), g, page, Address(0), 0, at)
}

// A message takes 7 bytes at least, so 512 turns are enough.
fn walk(rt: &impl Print, page: &[u8; 512]) -> io::Result<()> {
    let mut at: usize = 0;
    for _ in 0..512 {
        match parse_at(page, at) {
            Parsed::Found(m, next) => {
                print_message(rt, m)?;
                println!(rt; "\t{next}")?;
                at = next;
            }
            Parsed::End => return rt.println("end"),
            Parsed::Malformed => return println!(rt; "malformed\t{at}"),
        }
    }
    Ok(())
}

fn print_page(rt: &impl Print, page: &[u8; 512]) -> io::Result<()> {
    if message::is_blank(page) {
        return rt.println("blank");
    }
    walk(rt, page)
}

// An incomplete row ends the input.
fn rows(rt: &impl Print, input: &[u8]) -> io::Result<()> {
    for row in input.chunks_exact(1025) {
        print_page(rt, &page_of(row))?;
    }
    Ok(())
}

fn main(rt: HostRuntime) -> io::Result<()> {
    let mut text = [0u8; 65536];
    let n = input::read_full(&mut rt.stdin(), &mut text)?;
    rows(&rt, &text[..n])
}
