// The cut test. Reads images on standard input, dumps each ended by a line `Z`. The settle of each, and then each reclaim of the settled
// image, is cut between any two steps and within each step, and what is left has to show the same as before: the listing byte for byte,
// and every byte of every plain file. That it can fail is shown beside: the same reclaims with the label write before the pages.
// It writes, fields parted by tabs:
//   S image steps cuts same              the settle: how many steps, how many cut states were tried, how many showed the same
//   R image number steps cuts same       a reclaim
//   I image number steps cuts differ     that reclaim with its label write before its pages: how many did not show the same
//   T cuts same cuts differ              all lines S and R, and all lines I
// The images are few and small: the first 81,920 bytes are read.
#![tactic(auto)]

ghost use Rattle.std.specs.Prelude.{◌≤◌, length};

use cut::{Before, Spare, Tried};
use label::Flash;
use meaning::{Number, Record};
use shown::Shown;
use std::io;

// "numbers are at most 4095"
const NUMBERS: u32 = 4096;

#[derive(Clone, Copy)]
struct Totals {
    proper: Tried,
    impostors: Tried,
}

impl Totals {
    fn with_proper(self, t: Tried) -> Totals {
        Totals {
            proper: self.proper.and(t),
            impostors: self.impostors,
        }
    }

    fn with_impostor(self, t: Tried) -> Totals {
        Totals {
            proper: self.proper,
            impostors: self.impostors.and(t),
        }
    }
}

// ---- an image

// A reclaim of the settled image, and the same with its label write before its pages.
fn try_reclaim(
    rt: &impl Print,
    flash: &Flash,
    image: u64,
    number: Number,
    before: &Before,
    spare: &mut Spare,
    out: &mut [u8],
    all: Totals,
) -> io::Result<Totals> {
    let n = number.0;
    let list = cut::reclaim(flash, number, spare);
    let t = cut::try_list(flash, list.as_slice(), before, spare, out);
    println!(rt; "R\t{image}\t{n}\t{}\t{}\t{}", list.count, t.cuts, t.same)?;
    let wrong = cut::label_first(&list);
    let u = cut::try_list(flash, wrong.as_slice(), before, spare, out);
    println!(rt;
        "I\t{image}\t{n}\t{}\t{}\t{}",
        wrong.count,
        u.cuts,
        u.differ()
    )?;
    Ok(all.with_proper(t).with_impostor(u))
}

fn try_reclaims(
    rt: &impl Print,
    flash: &Flash,
    image: u64,
    before: &Before,
    spare: &mut Spare,
    out: &mut [u8],
    first: Totals,
) -> io::Result<Totals> {
    let mut all = first;
    for k in 0..NUMBERS {
        let number = Number(k);
        if flash.find_data(number).is_some() {
            all = try_reclaim(rt, flash, image, number, before, spare, out, all)?;
        }
    }
    Ok(all)
}

// The settle, and then the reclaims of the settled image. All cut states are compared with what the image showed before the settle.
fn try_services(
    rt: &impl Print,
    flash: &Flash,
    image: u64,
    before: &Before,
    out: &mut [u8],
    all: Totals,
) -> io::Result<Totals> {
    let mut settled = Spare::empty();
    let mut spare = Spare::empty();
    let list = cut::settle(flash, &mut settled);
    let t = cut::try_list(flash, list.as_slice(), before, &mut spare, out);
    println!(rt; "S\t{image}\t{}\t{}\t{}", list.count, t.cuts, t.same)?;
    try_reclaims(
        rt,
        &settled.flash(),
        image,
        before,
        &mut spare,
        out,
        all.with_proper(t),
    )
}

// The two buffers of listings are lent: they are large, and images may be many.
fn try_image(
    rt: &impl Print,
    flash: &Flash,
    image: u64,
    listed: &mut [u8],
    out: &mut [u8],
    all: Totals,
) -> io::Result<Totals> {
    let n = lister::put_listing(listed, 0, flash);
    let Some(listed) = listed.get(..n) else {
        return Ok(all);
    };
    let mut rows = [[0u32; 4]; 1024];
    let mut r = Shown::none();
    let files = match shown::show(flash, &mut rows, &mut r) {
        Ok(()) => &r.records[..r.files],
        Err(_) => &[],
    };
    try_services(rt, flash, image, &Before { listed, files }, out, all)
}

// ---- the images

fn try_text(
    rt: &impl Print,
    text: &[u8],
    image: u64,
    listed: &mut [u8],
    out: &mut [u8],
    all: Totals,
) -> io::Result<Totals> {
    let mut tags = [0u8; 32];
    let mut paths = [0u64; 32];
    let mut contents = [0u8; 32768];
    let Ok(d) = dump::parse(text, &mut tags, &mut paths, &mut contents) else {
        return Ok(all);
    };
    let geometry = d.geometry;
    let n = usize::from(geometry.blocks);
    let bytes = n * label::block_size(geometry) as usize;
    let flash = Flash {
        geometry,
        tags: &tags[..n],
        paths: &paths[..n],
        contents: &contents[..bytes],
    };
    try_image(rt, &flash, image, listed, out, all)
}

// Whether the line `Z` that ends a dump begins at i.
fn ends(text: &[u8], i: usize) -> bool {
    text::peek(text, i) == b'Z'
        && text::peek(text, text::past(text, i)) == text::NEWLINE
        && (i == 0 || text::peek(text, i - 1) == text::NEWLINE)
}

// Where the first dump of a text ends.
fn end_of(text: &[u8]) -> usize
    ensures { result ≤ length text.now }
{
    for i in 0..text.len() {
        if ends(text, i) {
            return i;
        }
    }
    text.len()
}

fn try_all(rt: &impl Print, text: &[u8], listed: &mut [u8], out: &mut [u8]) -> io::Result<Totals> {
    let mut all = Totals {
        proper: Tried::none(),
        impostors: Tried::none(),
    };
    // Counted beside: how many dumps a text has is known only at its end.
    let mut image: u64 = 0;
    let mut left = text;
    while !left.is_empty() {
        let end = end_of(left);
        image = image.wrapping_add(1);
        all = try_text(rt, &left[..end], image, listed, out, all)?;
        let Some(next) = left[end..].get(2..) else {
            return Ok(all);
        };
        left = next;
    }
    Ok(all)
}

fn main(rt: HostRuntime) -> io::Result<()> {
    let mut text = [0u8; 81920];
    let n = input::read_full(&mut rt.stdin(), &mut text)?;
    let mut listed = [0u8; 327680];
    let mut out = [0u8; 327680];
    let all = try_all(&rt, &text[..n], &mut listed, &mut out)?;
    let wrong = all.impostors;
    println!(rt;
        "T\t{}\t{}\t{}\t{}",
        all.proper.cuts,
        all.proper.same,
        wrong.cuts,
        wrong.differ()
    )
}
