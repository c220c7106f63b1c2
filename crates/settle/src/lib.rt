// Settle: the erase list of a mount, fixed before the first block is erased, then done block by block. The slices that it writes to stay
// apart, as in step.
#![tactic(auto)]

ghost use Rattle.std.specs.Prelude.{◌≡◌};
ghost use Rattle.meaning.specs.Services.{leaves, settle as the_settle, settle_steps};
ghost use Rattle.label.specs.Lent.{lent_of};
ghost use Rattle.plan.specs.Select.{lent};
ghost use Rattle.settle.specs.Settled.{answer, each, Counted};

use label::Flash;
use meaning::{Block, Geometry, Refusal, Step};
use shown::Shown;
use used::Erase;

// The list, from what a mount shows. Nothing is changed yet.
#[tactic(auto, using(crate::proofs::Each::listed, crate::proofs::Each::refused))]
fn list(flash: &Flash) -> Result<Erase, Refusal>
    ensures result_value { answer result ≡ the_settle flash.now.geometry (lent_of flash.now) }
    ensures counted { Counted result }
{
    let mut extents = [[0u32; 4]; 1024];
    let mut s = Shown::none();
    shown::show(flash, &mut extents, &mut s)?;
    Ok(s.erase)
}

// Erases the blocks one by one.
#[tactic(auto, using(crate::proofs::Each::none_erased, crate::proofs::Each::next_erased))]
fn erase_all(g: Geometry, tags: &mut [u8], paths: &mut [u64], contents: &mut [u8], blocks: &[u32])
    ensures { lent tags.new paths.new contents.new ≡ each g (lent tags.old paths.old contents.old) (settle_steps blocks.now) }
{
    for b in blocks {
        let _ = step::do_step(g, tags, paths, contents, Step::Erase(Block(*b as usize)));
    }
}

/// "Settle erases the blocks on the erase list, in ascending physical order." A refusal is the mount's, and the slices are then
/// as they were.
#[tactic(auto, using(crate::proofs::Each::settle_left, crate::proofs::Each::none_left))]
pub fn settle(
    g: Geometry,
    tags: &mut [u8],
    paths: &mut [u64],
    contents: &mut [u8],
) -> Result<Erase, Refusal>
    ensures result_value { (answer result ≡ the_settle g (lent tags.old paths.old contents.old)) × Counted result }
    ensures contents_after { lent tags.new paths.new contents.new ≡ leaves g (lent tags.old paths.old contents.old) (the_settle g (lent tags.old paths.old contents.old)) }
{
    let flash = Flash {
        geometry: g,
        tags,
        paths,
        contents,
    };
    let erase = list(&flash)?;
    erase_all(g, tags, paths, contents, &erase.blocks[..erase.count]);
    Ok(erase)
}
