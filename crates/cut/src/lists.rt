// Lists of steps: settle's as a list of its own, and the impostor's.
ghost use Rattle.std.specs.Prelude.{◌≡◌, length, min};

use meaning::{Block, Step};
use reclaim::Steps;

/// The blocks erased. No dump has more blocks than a list has places.
pub fn erases(blocks: &[u32]) -> Steps
    ensures { result.count ≡ min (length blocks.now) 35 }
{
    let mut steps = [Step::Erase(Block(0)); 35];
    let count = blocks.len().min(35);
    for i in 0..count {
        steps[i] = Step::Erase(Block(blocks[i] as usize));
    }
    Steps { steps, count }
}

/// The impostor: a reclaim's list with the label write, its last step but one, before the pages: after the erase of the target, if
/// there is one.
pub fn label_first(l: &Steps) -> Steps
    ensures { result.count ≡ l.now.count }
{
    let count = l.count;
    let mut steps = l.steps;
    let head = steps[0];
    let first = usize::from(matches!(head, Step::Erase(_)));
    if first + 1 < count {
        steps[first..count - 1].rotate_right(1);
    }
    Steps { steps, count }
}
