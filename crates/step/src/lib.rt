// One step of a settle or a reclaim, on the lent flash and labels. Nothing is written before the step is known to lie inside.
// Where slices are written they stay apart: a Flash of `&mut` slices was tried, and of what it leaves nothing is tied to the slices lent.
#![tactic(auto)]

ghost use Rattle.std.specs.List.{copy_within};
ghost use Rattle.std.specs.Prelude.{◌≡◌, true, [], ◌+◌, ◌*◌, ◌≤◌, ◌<◌, length, set, ltb};
ghost use Rattle.meaning.specs.declared.Step.TheVariants.{PageWrite};
ghost use Rattle.meaning.specs.Flash.{block_size, fits, good_geometry};
ghost use Rattle.meaning.specs.Services.{do_step, done, erased, inside as the_inside};
ghost use Rattle.plan.specs.Select.{lent};
ghost use Rattle.step.specs.Done.{answered, stepped};

use label::{Flash, Label};
use meaning::{Block, Geometry, Refusal, Step};

// The path of an erased block, 2^34 − 1.
const ERASED: u64 = 17179869183;

// ---- the steps

fn write_label(tags: &mut [u8], paths: &mut [u64], b: Block, tag: u8, path: u64)
    requires { (b.0 < length tags.old) × (b.0 < length paths.old) }
    ensures { (tags.new ≡ set tags.old b.0 tag) × (paths.new ≡ set paths.old b.0 path) }
{
    let i = b.0;
    tags[i] = tag;
    paths[i] = path;
}

#[tactic(auto, using(crate::proofs::Place::block_ends, crate::proofs::Whole::fit_tags, crate::proofs::Whole::fit_paths, crate::proofs::Whole::fit_contents))]
fn erase(g: Geometry, tags: &mut [u8], paths: &mut [u64], contents: &mut [u8], b: Block)
    requires { (fits g (lent tags.old paths.old contents.old) ≡ true) × (b.0 < g.blocks) }
    ensures { lent tags.new paths.new contents.new ≡ erased g (lent tags.old paths.old contents.old) b.0 }
{
    let size = label::block_size(g) as usize;
    let at = b.0 * size;
    let end = at + size;
    contents[at..end].fill(0xff);
    write_label(tags, paths, b, Label::FREE, ERASED);
}

// "The part of the lent contents that is one target page is lent on as &mut to the page writer, which fills it."
fn write_page(target: &mut [u8], page: &[u8])
    requires { length target.old ≡ length page.now }
    ensures { target.new ≡ page.now }
{
    target.copy_from_slice(page);
}

// The page goes through a local, for source and target stand in the same slice.
fn copy_page(contents: &mut [u8], from: usize, to: usize, size: usize)
    requires { (from + size ≤ length contents.old) × (to + size ≤ length contents.old) × (size ≤ 2048) }
    ensures { contents.new ≡ copy_within contents.old from (from + size) to }
{
    let mut held = [0; 2048];
    held[..size].copy_from_slice(&contents[from..from + size]);
    write_page(&mut contents[to..to + size], &held[..size]);
}

#[tactic(auto, using(crate::proofs::Place::page_within, crate::proofs::Place::size_within))]
fn write(g: Geometry, contents: &mut [u8], from: Block, to: Block, page: usize)
    requires { (good_geometry g ≡ true) × (length contents.old ≡ g.blocks * block_size g) × (from.0 < g.blocks) × (to.0 < g.blocks) × (page < g.pages) }
    ensures { contents.new ≡ (done g (lent [] [] contents.old) (PageWrite from to page)).contents }
{
    let size = g.size as usize;
    let block = label::block_size(g) as usize;
    let source = from.0 * block + page * size;
    let target = to.0 * block + page * size;
    copy_page(contents, source, target, size);
}

// ---- what lies inside

fn is_block(g: Geometry, b: Block) -> bool
    ensures { result ≡ ltb b.0 g.blocks }
{
    b.0 < usize::from(g.blocks)
}

#[tactic(auto, unfolding(meaning::specs::Services::inside))]
fn inside(g: Geometry, s: Step) -> bool
    ensures { result ≡ the_inside g s }
{
    match s {
        Step::Erase(b) => is_block(g, b),
        Step::PageWrite { from, to, page } => {
            is_block(g, from) && is_block(g, to) && page < usize::from(g.pages)
        }
        Step::LabelWrite { block, .. } => is_block(g, block),
    }
}

/// Does one step. "a step outside the geometry is refused with 1", and the slices are then as they were.
#[tactic(auto, using(crate::proofs::Whole::fit_good, crate::proofs::Whole::fit_tags, crate::proofs::Whole::fit_paths, crate::proofs::Whole::fit_contents, crate::proofs::Whole::page_left), unfolding(crate::specs::Done::answered, crate::specs::Done::stepped, crate::specs::Done::left, meaning::specs::Services::do_step, meaning::specs::Services::inside, meaning::specs::Services::done, meaning::specs::Services::relabel, base::specs::Choice::if_true))]
pub fn do_step(
    g: Geometry,
    tags: &mut [u8],
    paths: &mut [u64],
    contents: &mut [u8],
    s: Step,
) -> Result<(), Refusal>
    ensures { (result ≡ answered (do_step g (lent tags.old paths.old contents.old) s)) × (lent tags.new paths.new contents.new ≡ stepped g (lent tags.old paths.old contents.old) s) }
{
    let flash = Flash {
        geometry: g,
        tags,
        paths,
        contents,
    };
    if !plan::fits(&flash) || !inside(g, s) {
        return Err(Refusal::Geometry);
    }
    match s {
        Step::Erase(b) => erase(g, tags, paths, contents, b),
        Step::PageWrite { from, to, page } => write(g, contents, from, to, page),
        Step::LabelWrite { block, tag, path } => write_label(tags, paths, block, tag, path),
    }
    Ok(())
}
