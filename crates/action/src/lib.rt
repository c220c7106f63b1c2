// A step of a settle or a reclaim, in numbers: as a host takes it from a list, and gives it back to be done.
#![tactic(auto)]

ghost use Rattle.std.specs.Prelude.{◌≡◌, map, take};
ghost use Rattle.reclaim.specs.Reclaimed.{steps_in};
ghost use Rattle.action.specs.Action.{action_of, step_of};

use meaning::{Block, Step};
use reclaim::Steps;

/// What a step of its kind does not have is 0.
#[repr(C)]
#[derive(Clone, Copy)]
pub struct Action {
    // No enum: a host in C may give any number.
    pub kind: u32,
    /// The tag of a label write.
    pub tag: u8,
    /// The block under work.
    pub block: usize,
    /// The block that a page write reads from, and the page.
    pub from: usize,
    pub page: usize,
    /// The path of a label write.
    pub path: u64,
}

impl Action {
    pub const ERASE: u32 = 1;

    pub const PAGE: u32 = 2;

    pub const LABEL: u32 = 3;
}

/// The step that the numbers say. A kind that is none of the three names a block that no geometry has, so it is refused as any such
/// step is.
impl From<Action> for Step {
    ghost from_gives = { λ a s. s ≡ step_of a };

    #[tactic(auto, unfolding(crate::specs::Action::step_of, base::specs::Choice::if_eq, base::specs::Choice::if_true))]
    fn from(a: Action) -> Step {
        match a.kind {
            Action::ERASE => Step::Erase(Block(a.block)),
            Action::PAGE => Step::PageWrite {
                from: Block(a.from),
                to: Block(a.block),
                page: a.page,
            },
            Action::LABEL => Step::LabelWrite {
                block: Block(a.block),
                tag: a.tag,
                path: a.path,
            },
            _ => Step::Erase(Block(65536)),
        }
    }
}

impl From<Step> for Action {
    ghost from_gives = { λ s a. a ≡ action_of s };

    fn from(s: Step) -> Action {
        match s {
            Step::Erase(b) => Action {
                kind: Action::ERASE,
                tag: 0,
                block: b.0,
                from: 0,
                page: 0,
                path: 0,
            },
            Step::PageWrite { from, to, page } => Action {
                kind: Action::PAGE,
                tag: 0,
                block: to.0,
                from: from.0,
                page,
                path: 0,
            },
            Step::LabelWrite { block, tag, path } => Action {
                kind: Action::LABEL,
                tag,
                block: block.0,
                from: 0,
                page: 0,
                path,
            },
        }
    }
}

/// A list of steps in numbers: as many as it has.
pub fn actions_of(l: Steps) -> [Action; 35]
    ensures { take l.count result ≡ map action_of (steps_in l) }
{
    let none = Action::from(Step::Erase(Block(0)));
    let mut actions = [none; 35];
    for (k, s) in l.as_slice().iter().enumerate() {
        actions[k] = Action::from(*s);
    }
    actions
}
