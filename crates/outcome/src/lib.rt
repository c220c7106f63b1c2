// How a service ended, in the numbers of document 01: what a host sees of a refusal.
#![tactic(auto)]

ghost use Rattle.std.specs.Prelude.{◌≡◌, Err};
ghost use Rattle.meaning.specs.Answer.{number_of, place_of};
ghost use Rattle.outcome.specs.Outcome.{outcome_of};

use meaning::Refusal;

/// 0 and 0 where nothing was refused, else the refusal's number and the place that it gives.
#[repr(C)]
#[derive(Clone, Copy)]
pub struct Outcome {
    pub refusal: u32,
    pub place: u64,
}

/// The column "no." of document 01's table.
#[tactic(auto, unfolding(meaning::specs::Answer::number_of))]
pub fn number_of(r: Refusal) -> u32
    ensures { result ≡ number_of r }
{
    match r {
        Refusal::Geometry => 1,
        Refusal::Tag(_) => 2,
        Refusal::Path(_) => 3,
        Refusal::Copies(_) => 4,
        Refusal::Boot => 5,
        Refusal::Log => 6,
        Refusal::Page(_) => 7,
        Refusal::Message(_) => 8,
        Refusal::Full(_) => 9,
        Refusal::Data(_) => 10,
        Refusal::Unsettled => 11,
        Refusal::NoBlock(_) => 12,
        Refusal::NoRoom(_) => 13,
        Refusal::NoFile(_) => 14,
        Refusal::Dump(_) => 15,
    }
}

/// The column "place given".
#[tactic(auto, unfolding(meaning::specs::Answer::place_of))]
pub fn place_of(r: Refusal) -> u64
    ensures { result ≡ place_of r }
{
    match r {
        Refusal::Geometry => 0,
        Refusal::Tag(b) => b.0 as u64,
        Refusal::Path(b) => b.0 as u64,
        Refusal::Copies(b) => b.0 as u64,
        Refusal::Boot => 0,
        Refusal::Log => 0,
        Refusal::Page(a) => a.0,
        Refusal::Message(a) => a.0,
        Refusal::Full(a) => a.0,
        Refusal::Data(p) => p as u64,
        Refusal::Unsettled => 0,
        Refusal::NoBlock(k) => k.0 as u64,
        Refusal::NoRoom(n) => n as u64,
        Refusal::NoFile(p) => p,
        Refusal::Dump(l) => l,
    }
}

impl From<Refusal> for Outcome {
    ghost from_gives = { λ r o. o ≡ outcome_of (Err r) };

    fn from(r: Refusal) -> Outcome {
        Outcome {
            refusal: number_of(r),
            place: place_of(r),
        }
    }
}

impl From<Result<(), Refusal>> for Outcome {
    ghost from_gives = { λ r o. o ≡ outcome_of r };

    fn from(r: Result<(), Refusal>) -> Outcome {
        match r {
            Ok(()) => Outcome {
                refusal: 0,
                place: 0,
            },
            Err(x) => Outcome::from(x),
        }
    }
}
