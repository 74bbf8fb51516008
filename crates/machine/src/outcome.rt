ghost use Rattle.std.specs.Prelude.{◌≡◌, ◌≤◌};
ghost use Rattle.machine.specs.declared.outcome.Outcome.TheVariants.{Space};
ghost use Rattle.machine.specs.Steps.{last};
ghost use Rattle.machine.specs.Turns.{marked};

use crate::state::Status;
use program::Fault;

// Why a run ended: its allowance was spent, the program halted, READ found nothing waiting, a print found too
// little space, or an instruction was at fault.
#[derive(Clone, Copy, PartialEq, Eq)]
pub enum Outcome {
    Spent,
    Halted,
    Reading,
    Space,
    Fault(Fault),
}

// The steps that a run did, and why it ended.
#[derive(Clone, Copy, PartialEq, Eq)]
pub struct Report {
    pub steps: u32,
    pub outcome: Outcome,
}

impl Outcome {
    // How many steps the end of a run was: HALT is one, and any other is none.
    pub(crate) fn last_step(self) -> u32
        ensures is { result ≡ last self }
        ensures most { result ≤ 1 }
    {
        u32::from(self == Outcome::Halted)
    }
}

// A print that is longer than the space left.
#[derive(Clone, Copy)]
pub(crate) struct NoSpace;

impl From<NoSpace> for Outcome {
    ghost from_gives = { λ _ outcome. outcome ≡ Space };

    fn from(_: NoSpace) -> Outcome {
        Outcome::Space
    }
}

// A run that halted or was at fault is not gone on with.
impl From<Outcome> for Status {
    ghost from_gives = { λ outcome status. status ≡ marked outcome };

    fn from(outcome: Outcome) -> Status {
        match outcome {
            Outcome::Halted => Status::Halted,
            Outcome::Fault(fault) => Status::Faulted(fault),
            _ => Status::Live,
        }
    }
}
