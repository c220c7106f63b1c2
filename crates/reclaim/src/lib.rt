// Reclaim: one data block written anew without its dead pages. The list of steps is whole before the first of them is done. The slices
// that it writes to stay apart, as in step.
#![tactic(auto)]

ghost use Rattle.std.specs.Prelude.{◌≡◌, true, [], ◌∷◌, ◌++◌, map, ◌+◌, ◌<◌, ◌≤◌, get_or};
ghost use Rattle.base.specs.Scan.{places};
ghost use Rattle.meaning.specs.declared.Step.TheVariants.{PageWrite};
ghost use Rattle.meaning.specs.Flash.{fits};
ghost use Rattle.meaning.specs.Services.{cleared, free_blocks, leaves, lowest_free, reclaim as the_reclaim, renewed_path, writable};
ghost use Rattle.label.specs.Lent.{blocks, image, labels, lent_of};
ghost use Rattle.plan.specs.Select.{lent};
ghost use Rattle.used.specs.Bits.{has_page};
ghost use Rattle.settle.specs.Settled.{each};
ghost use Rattle.reclaim.specs.Reclaimed.{answer, reclaim_by, steps_by, steps_in};

mod steps;

use label::{Flash, Label};
use meaning::{Block, Geometry, Number, Refusal, Step, Tag};
use shown::Shown;
pub use steps::Steps;

// ---- the target

#[tactic(auto, using(crate::proofs::Lists::none_free, crate::proofs::Lists::count_free, crate::proofs::Lists::pass_free, crate::proofs::Lists::all_free))]
fn free_blocks(flash: &Flash) -> usize
    ensures { (result ≡ free_blocks (blocks flash.now) (labels flash.now)) × (result ≤ blocks flash.now) }
{
    let mut free = 0;
    for i in 0..flash.tags.len() {
        if flash.is_tag(Tag::Free, Block(i)) {
            free += 1;
        }
    }
    free
}

// "the lowest physical free block"; 0 where none is free, which is asked before.
#[tactic(auto, using(label::proofs::Scanned::scans), unfolding(meaning::specs::Services::is_free, meaning::specs::Services::lowest_free))]
fn lowest_free(flash: &Flash) -> Block
    ensures { (result.0 ≡ lowest_free (blocks flash.now) (labels flash.now)) × (0 < blocks flash.now → result.0 < blocks flash.now) }
{
    for i in 0..flash.tags.len() {
        if flash.is_tag(Tag::Free, Block(i)) {
            return Block(i);
        }
    }
    Block(0)
}

// A free tag does not say that the pages are blank.
#[tactic(auto, using(step::proofs::Place::block_ends, step::proofs::Whole::fit_contents, crate::proofs::Lists::block_blank))]
fn is_writable(flash: &Flash, b: Block) -> bool
    requires { (fits flash.now.geometry (lent_of flash.now) ≡ true) × (b.0 < flash.now.geometry.blocks) }
    ensures { result ≡ writable (image flash.now) b.0 }
{
    let size = label::block_size(flash.geometry) as usize;
    let at = b.0 * size;
    let end = at + size;
    message::is_blank(&flash.contents[at..end])
}

// ---- the list, part by part

// "(1) Erase it if not all blank."
#[tactic(auto, unfolding(meaning::specs::Services::cleared, base::specs::Choice::if_true))]
fn clear_target(flash: &Flash, b: Block) -> Steps
    requires { (fits flash.now.geometry (lent_of flash.now) ≡ true) × (b.0 < flash.now.geometry.blocks) }
    ensures { (steps_in result ≡ cleared (image flash.now) b.0) × (result.count ≤ 1) }
{
    let none = Steps::empty();
    if is_writable(flash, b) {
        none
    } else {
        none.add(Step::Erase(b))
    }
}

// "(2) Write each used page, ascending, to the same page of the target."
#[tactic(auto, using(crate::proofs::Lists::pages_none, crate::proofs::Lists::pages_yes, crate::proofs::Lists::pages_no))]
fn write_pages(g: Geometry, mask: u32, old: Block, target: Block, l: Steps) -> Steps
    requires { (l.count ≤ 1) × (g.pages ≤ 32) }
    ensures { (steps_in result ≡ steps_in l ++ map (PageWrite old target) (places g.pages (has_page mask))) × (result.count ≤ 33) }
{
    let mut r = l;
    for page in 0..usize::from(g.pages) {
        if used::has_page(mask, page) {
            r = r.add(Step::PageWrite {
                from: old,
                to: target,
                page,
            });
        }
    }
    r
}

// "data, same number, copy generation + 1 mod 4"
#[tactic(auto, using(crate::proofs::Lists::renews))]
fn renewed_path(flash: &Flash, number: u32, old: Block) -> u64
    ensures { result ≡ renewed_path (labels flash.now) number old.0 }
{
    let next = flash.label_at(old).copy().successor();
    u64::from(number) * 4 + u64::from(next.0)
}

// "(3) Write the label .. (4) Erase the old block.", after the pages.
#[tactic(auto, using(crate::proofs::Lists::whole_list, crate::proofs::Lists::few_pages))]
fn list_steps(flash: &Flash, number: u32, mask: u32, old: Block, target: Block) -> Steps
    requires { (fits flash.now.geometry (lent_of flash.now) ≡ true) × (target.0 < flash.now.geometry.blocks) }
    ensures { steps_in result ≡ steps_by flash.now.geometry (image flash.now) number mask old.0 target.0 }
{
    let first = clear_target(flash, target);
    let pages = write_pages(flash.geometry, mask, old, target, first);
    let path = renewed_path(flash, number, old);
    let labelled = pages.add(Step::LabelWrite {
        block: target,
        tag: Label::DATA,
        path,
    });
    labelled.add(Step::Erase(old))
}

// ---- the answer

// The bits of block b's used pages.
fn mask_of(masks: &[u32], b: Block) -> u32
    ensures { result ≡ get_or masks.now b.0 0 }
{
    masks.get(b.0).copied().unwrap_or(0)
}

// After the mount's refusals: UNSETTLED, NOBLOCK, NOROOM.
#[tactic(auto, using(crate::proofs::Reclaims::by_unsettled, crate::proofs::Reclaims::by_absent, crate::proofs::Reclaims::by_few, crate::proofs::Reclaims::by_steps, step::proofs::Whole::fit_tags))]
fn list_on(flash: &Flash, number: u32, masks: &[u32], unsettled: usize) -> Result<Steps, Refusal>
    requires { fits flash.now.geometry (lent_of flash.now) ≡ true }
    ensures { answer result ≡ reclaim_by flash.now.geometry (image flash.now) number masks.now unsettled }
{
    if 0 < unsettled {
        return Err(Refusal::Unsettled);
    }
    let n = Number(number);
    let Some(old) = flash.find_data(n) else {
        return Err(Refusal::NoBlock(n));
    };
    let free = free_blocks(flash);
    if free < 2 {
        return Err(Refusal::NoRoom(free));
    }
    let target = lowest_free(flash);
    let mask = mask_of(masks, old);
    Ok(list_steps(flash, number, mask, old, target))
}

// The list, from what a mount shows. Nothing is changed yet.
#[tactic(auto, using(crate::proofs::Reclaims::shown_fit, crate::proofs::Reclaims::by_shown, crate::proofs::Reclaims::by_refusal))]
fn list(flash: &Flash, number: u32) -> Result<Steps, Refusal>
    ensures { answer result ≡ the_reclaim flash.now.geometry (lent_of flash.now) number }
{
    let mut extents = [[0u32; 4]; 1024];
    let mut s = Shown::none();
    shown::show(flash, &mut extents, &mut s)?;
    list_on(flash, number, &s.used, s.erase.count)
}

// ---- the steps

// The loop of settle is over numbers of blocks: one loop for both would take a closure, for one line.
#[tactic(auto, using(settle::proofs::Each::none_done))]
fn do_all(g: Geometry, tags: &mut [u8], paths: &mut [u64], contents: &mut [u8], steps: &[Step])
    ensures { lent tags.new paths.new contents.new ≡ each g (lent tags.old paths.old contents.old) steps.now }
{
    for s in steps {
        let _ = step::do_step(g, tags, paths, contents, *s);
    }
}

/// "Reclaim rewrites one data block without its dead pages." A refusal is the mount's, UNSETTLED, NOBLOCK or NOROOM, and the
/// slices are then as they were.
#[tactic(auto, using(crate::proofs::Reclaims::reclaim_left, settle::proofs::Each::none_left))]
pub fn reclaim(
    g: Geometry,
    tags: &mut [u8],
    paths: &mut [u64],
    contents: &mut [u8],
    number: u32,
) -> Result<Steps, Refusal>
    ensures result_value { answer result ≡ the_reclaim g (lent tags.old paths.old contents.old) number }
    ensures contents_after { lent tags.new paths.new contents.new ≡ leaves g (lent tags.old paths.old contents.old) (the_reclaim g (lent tags.old paths.old contents.old) number) }
{
    let flash = Flash {
        geometry: g,
        tags,
        paths,
        contents,
    };
    let list = list(&flash, number)?;
    do_all(g, tags, paths, contents, list.as_slice());
    Ok(list)
}
