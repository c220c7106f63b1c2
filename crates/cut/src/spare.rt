// A copy of an image, to try steps and services on. A dump has at most 32 blocks and 32,768 content bytes.
ghost use Rattle.std.specs.Prelude.{◌≡◌, ◌≤◌};
ghost use Rattle.step.specs.Done.{written};

use crate::junk::Junk;
use crate::lists;
use label::Flash;
use meaning::{Block, Geometry, Number, Step};
use reclaim::Steps;

#[derive(Drop)]
pub struct Spare {
    geometry: Geometry,
    tags: [u8; 32],
    paths: [u64; 32],
    contents: [u8; 32768],
}

fn blocks(g: Geometry) -> usize
    ensures { result ≤ 32 }
{
    usize::from(g.blocks).min(32)
}

fn bytes(g: Geometry) -> usize
    ensures { result ≤ 32768 }
{
    let size = label::block_size(g) as usize;
    size.saturating_mul(blocks(g)).min(32768)
}

// ---- what is done to a spare's arrays, as far as its image goes

fn do_step(
    g: Geometry,
    tags: &mut [u8; 32],
    paths: &mut [u64; 32],
    contents: &mut [u8; 32768],
    s: Step,
) {
    let n = blocks(g);
    let bytes = bytes(g);
    let _ = step::do_step(
        g,
        &mut tags[..n],
        &mut paths[..n],
        &mut contents[..bytes],
        s,
    );
}

fn do_settle(
    g: Geometry,
    tags: &mut [u8; 32],
    paths: &mut [u64; 32],
    contents: &mut [u8; 32768],
) -> Steps {
    let n = blocks(g);
    let bytes = bytes(g);
    match settle::settle(g, &mut tags[..n], &mut paths[..n], &mut contents[..bytes]) {
        Ok(erase) => lists::erases(&erase.blocks[..erase.count]),
        Err(_) => Steps::empty(),
    }
}

fn do_reclaim(
    g: Geometry,
    tags: &mut [u8; 32],
    paths: &mut [u64; 32],
    contents: &mut [u8; 32768],
    number: Number,
) -> Steps {
    let n = blocks(g);
    let bytes = bytes(g);
    let (ts, ps, xs) = (&mut tags[..n], &mut paths[..n], &mut contents[..bytes]);
    match reclaim::reclaim(g, ts, ps, xs, number.0) {
        Ok(steps) => steps,
        Err(_) => Steps::empty(),
    }
}

// ---- a spare

impl Spare {
    /// Room for an image. One spare is lent for every cut state: a state costs a copy of the image's own bytes, and no more.
    pub fn empty() -> Spare
        ensures { (result.geometry.size ≡ 0) × (result.geometry.pages ≡ 0) × (result.geometry.blocks ≡ 0) }
    {
        Spare {
            geometry: Geometry {
                size: 0,
                pages: 0,
                blocks: 0,
            },
            tags: [0; 32],
            paths: [0; 32],
            contents: [0; 32768],
        }
    }

    pub fn flash(&self) -> Flash<'_>
        ensures { result.geometry ≡ self.now.geometry }
    {
        let n = blocks(self.geometry);
        let bytes = bytes(self.geometry);
        Flash {
            geometry: self.geometry,
            tags: &self.tags[..n],
            paths: &self.paths[..n],
            contents: &self.contents[..bytes],
        }
    }

    /// Holds the image from now on.
    pub fn hold(&mut self, flash: &Flash)
        ensures geometry_after { self.new.geometry ≡ flash.now.geometry }
        ensures tags_after { self.new.tags ≡ written self.old.tags flash.now.tags.now }
        ensures paths_after { self.new.paths ≡ written self.old.paths flash.now.paths.now }
        ensures contents_after { self.new.contents ≡ written self.old.contents flash.now.contents.now }
    {
        self.geometry = flash.geometry;
        copy::image(flash, &mut self.tags, &mut self.paths, &mut self.contents);
    }

    /// Does a step.
    pub fn step(&mut self, s: Step)
        ensures { self.new.geometry ≡ self.old.geometry }
    {
        let g = self.geometry;
        let Spare {
            tags,
            paths,
            contents,
            ..
        } = self;
        do_step(g, tags, paths, contents, s);
    }

    /// Holds the image from now on, with some steps done.
    pub fn hold_after(&mut self, flash: &Flash, steps: &[Step])
        ensures { self.new.geometry ≡ flash.now.geometry }
    {
        self.hold(flash);
        for s in steps {
            self.step(*s);
        }
    }

    /// Fills a block with junk.
    pub fn spoil(&mut self, b: Block, junk: Junk)
        ensures { self.new.geometry ≡ self.old.geometry }
    {
        let size = label::block_size(self.geometry) as usize;
        let at = size.saturating_mul(b.0);
        let bytes = bytes(self.geometry);
        if let Some(block) = self.contents[..bytes].get_mut(at..at.saturating_add(size)) {
            junk.fill(block);
        }
    }
}

/// The steps of a settle of the image; none after a refusal. The spare then holds the image settled.
pub fn settle(flash: &Flash, spare: &mut Spare) -> Steps
    ensures { spare.new.geometry ≡ flash.now.geometry }
{
    spare.hold(flash);
    let Spare {
        tags,
        paths,
        contents,
        ..
    } = spare;
    do_settle(flash.geometry, tags, paths, contents)
}

/// The steps of a reclaim of the image, done on the spare; none after a refusal.
pub fn reclaim(flash: &Flash, number: Number, spare: &mut Spare) -> Steps
    ensures { spare.new.geometry ≡ flash.now.geometry }
{
    spare.hold(flash);
    let Spare {
        tags,
        paths,
        contents,
        ..
    } = spare;
    do_reclaim(flash.geometry, tags, paths, contents, number)
}
