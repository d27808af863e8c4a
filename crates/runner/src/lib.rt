// The Runner level: a step's text is tried on a held marking of a held model.
#![tactic(auto)]

ghost use Rattle.std.specs.Prelude.{◌≡◌};
ghost use Rattle.runner.specs.declared.StepRefusal.TheVariants.{Unread, Turned};

use reader::ReadRefusal;
use step::Refusal;

pub mod lent;
pub mod stepping;

// Why a step is not fired: its text is not read, or the step is turned down.
#[derive(Clone, Copy, PartialEq, Eq, Debug)]
pub enum StepRefusal {
    Unread(ReadRefusal),
    Turned(Refusal),
}

impl From<ReadRefusal> for StepRefusal {
    ghost from_gives = { λ refusal answer. answer ≡ Unread refusal };

    fn from(refusal: ReadRefusal) -> StepRefusal {
        StepRefusal::Unread(refusal)
    }
}

impl From<Refusal> for StepRefusal {
    ghost from_gives = { λ refusal answer. answer ≡ Turned refusal };

    fn from(refusal: Refusal) -> StepRefusal {
        StepRefusal::Turned(refusal)
    }
}
