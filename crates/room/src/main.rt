// Reads a dump on standard input, as the program `list` does, and writes what making room would do. A refusal is its line X alone.
// Else, fields parted by tabs:
//   U number page        each used page, by number, then page
//   K block              each block on the erase list
//   S e block            settle's steps
//   R number             each data block of the settled image, by number, and then the steps of its reclaim or its line X; each
//                        reclaim is of the settled image, never of what another left
//   D path offset hex    each plain file by path, read from the settled image: its first 32 bytes, and its last if it has more
// Each line is written as soon as it is made, so no text has to have room: the longest, a D of 32 bytes, has at most 109.
#![tactic(auto)]

use label::Flash;
use meaning::{Block, Geometry, Number, Record, Refusal, Step};
use shown::Shown;
use std::io;

// "numbers are at most 4095"
const NUMBERS: u32 = 4096;

// ---- lines

// The line that `put` makes: it says how long it is.
fn write<F: FnOnce(&mut [u8]) -> usize>(rt: &impl Print, put: F) -> io::Result<()>
    requires { F.IsAlwaysCallable put }
{
    let mut line = [0u8; 128];
    let n = put(&mut line);
    rt.write_all(line.get(..n).unwrap_or(&[]))
}

fn write_refusal(rt: &impl Print, r: Refusal) -> io::Result<()> {
    write(rt, |line| listing::put_refusal(line, 0, r))
}

fn write_step(rt: &impl Print, s: Step) -> io::Result<()> {
    write(rt, |line| report::put_step(line, 0, s))
}

// ---- used pages

fn write_pages(rt: &impl Print, g: Geometry, number: Number, mask: u32) -> io::Result<()> {
    for page in 0..usize::from(g.pages) {
        if used::has_page(mask, page) {
            write(rt, |line| report::put_page(line, 0, number, page))?;
        }
    }
    Ok(())
}

fn write_used(rt: &impl Print, flash: &Flash, masks: &[u32]) -> io::Result<()> {
    for k in 0..NUMBERS {
        let number = Number(k);
        if let Some(b) = flash.find_data(number) {
            let mask = masks.get(b.0).copied().unwrap_or(0);
            write_pages(rt, flash.geometry, number, mask)?;
        }
    }
    Ok(())
}

// ---- the erase list, and settle

fn block_of(b: u32) -> Block {
    Block(b as usize)
}

fn write_erase_list(rt: &impl Print, blocks: &[u32]) -> io::Result<()> {
    for b in blocks {
        let block = block_of(*b);
        write(rt, |line| report::put_block(line, 0, block))?;
    }
    Ok(())
}

fn write_erases(rt: &impl Print, blocks: &[u32]) -> io::Result<()> {
    for b in blocks {
        write_step(rt, Step::Erase(block_of(*b)))?;
    }
    Ok(())
}

fn settle(
    rt: &impl Print,
    g: Geometry,
    tags: &mut [u8],
    paths: &mut [u64],
    contents: &mut [u8],
) -> io::Result<()> {
    match settle::settle(g, tags, paths, contents) {
        Ok(erase) => write_erases(rt, &erase.blocks[..erase.count]),
        Err(_) => Ok(()),
    }
}

// ---- reclaims

fn write_steps(rt: &impl Print, steps: &[Step]) -> io::Result<()> {
    for s in steps {
        write_step(rt, *s)?;
    }
    Ok(())
}

// A reclaim of the settled image, on a copy of it.
fn reclaim(rt: &impl Print, flash: &Flash, number: Number) -> io::Result<()> {
    let mut tags = [0u8; 32];
    let mut paths = [0u64; 32];
    let mut contents = [0u8; 32768];
    copy::image(flash, &mut tags, &mut paths, &mut contents);
    let n = flash.tags.len().min(32);
    let bytes = flash.contents.len().min(32768);
    write(rt, |line| report::put_number(line, 0, number))?;
    match reclaim::reclaim(
        flash.geometry,
        &mut tags[..n],
        &mut paths[..n],
        &mut contents[..bytes],
        number.0,
    ) {
        Ok(list) => write_steps(rt, list.as_slice()),
        Err(x) => write_refusal(rt, x),
    }
}

fn reclaim_all(rt: &impl Print, flash: &Flash) -> io::Result<()> {
    for k in 0..NUMBERS {
        let number = Number(k);
        if flash.find_data(number).is_some() {
            reclaim(rt, flash, number)?;
        }
    }
    Ok(())
}

// ---- files

fn read_at(rt: &impl Print, flash: &Flash, path: u32, offset: u64) -> io::Result<()> {
    let mut buffer = [0u8; 32];
    match file::read(flash, u64::from(path), offset, &mut buffer) {
        Err(x) => write_refusal(rt, x),
        Ok(n) => {
            let bytes = buffer.get(..n).unwrap_or(&[]);
            write(rt, |line| report::put_data(line, 0, path, offset, bytes))
        }
    }
}

fn read_file(rt: &impl Print, flash: &Flash, f: &Record) -> io::Result<()> {
    if tree::is_dir(f.perm) {
        return Ok(());
    }
    read_at(rt, flash, f.path, 0)?;
    if 32 < f.length {
        read_at(rt, flash, f.path, u64::from(f.length) - 32)?;
    }
    Ok(())
}

fn read_files(rt: &impl Print, flash: &Flash, records: &[Record]) -> io::Result<()> {
    for f in records {
        read_file(rt, flash, f)?;
    }
    Ok(())
}

// ---- the whole

fn make_room(
    rt: &impl Print,
    g: Geometry,
    tags: &mut [u8],
    paths: &mut [u64],
    contents: &mut [u8],
) -> io::Result<()> {
    let mut rows = [[0u32; 4]; 1024];
    let flash = Flash {
        geometry: g,
        tags,
        paths,
        contents,
    };
    let mut r = Shown::none();
    if let Err(x) = shown::show(&flash, &mut rows, &mut r) {
        return write_refusal(rt, x);
    }
    write_used(rt, &flash, &r.used)?;
    write_erase_list(rt, &r.erase.blocks[..r.erase.count])?;
    settle(rt, g, tags, paths, contents)?;
    let settled = Flash {
        geometry: g,
        tags,
        paths,
        contents,
    };
    reclaim_all(rt, &settled)?;
    read_files(rt, &settled, &r.records[..r.files])
}

// A dump has at most 32 blocks and 32,768 content bytes, and the first 81,920 bytes of a text hold its first bad line.
fn run(rt: &impl Print, text: &[u8]) -> io::Result<()> {
    let mut tags = [0u8; 32];
    let mut paths = [0u64; 32];
    let mut contents = [0u8; 32768];
    match dump::parse(text, &mut tags, &mut paths, &mut contents) {
        Err(x) => write_refusal(rt, x),
        Ok(d) => {
            let g = d.geometry;
            let n = usize::from(g.blocks);
            let bytes = n * label::block_size(g) as usize;
            make_room(
                rt,
                g,
                &mut tags[..n],
                &mut paths[..n],
                &mut contents[..bytes],
            )
        }
    }
}

// The first 81,920 bytes of a text hold its first bad line.
fn main(rt: HostRuntime) -> io::Result<()> {
    let mut text = [0u8; 81920];
    let n = input::read_full(&mut rt.stdin(), &mut text)?;
    run(&rt, &text[..n])
}
