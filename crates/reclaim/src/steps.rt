// The list of a reclaim's steps, which keeps that it has room.
#![tactic(auto)]

ghost use Rattle.std.specs.Prelude.{◌≡◌, [], ◌∷◌, ◌++◌, ◌+◌, ◌<◌, ◌≤◌, length};

use meaning::{Block, Step};

/// The first `count` places are the list: at most an erase, 32 pages, the label and an erase. An array and a count, for there is no heap.
#[derive(Clone, Copy)]
pub struct Steps {
    pub steps: [Step; 35],
    pub count: usize,
    ghost whole: { (length steps ≡ 35) × (count ≤ 35) },
}

impl Steps {
    ghost use Rattle.reclaim.specs.Reclaimed.{steps_in};

    pub fn empty() -> Steps
        ensures { (steps_in result ≡ []) × (result.count ≡ 0) }
    {
        Steps {
            steps: [Step::Erase(Block(0)); 35],
            count: 0,
        }
    }

    /// The list with a step at its end.
    #[tactic(auto, using(crate::proofs::Lists::added))]
    pub fn add(mut self, s: Step) -> Steps
        requires { self.count < 35 }
        ensures { (steps_in result ≡ steps_in self ++ (s ∷ [])) × (result.count ≡ self.count + 1) }
    {
        self.steps[self.count] = s;
        self.count += 1;
        self
    }

    /// The steps that are listed.
    pub fn as_slice(&self) -> &[Step]
        ensures { result.now ≡ steps_in self.now }
    {
        &self.steps[..self.count]
    }
}
