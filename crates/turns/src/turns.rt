ghost use Rattle.std.specs.Prelude.{◌≡◌};

use machine::{Outcome, Report};

// The steps of all turns, and why the last one ended.
// Stays: beside Report, since the steps of two turns need more than its 32 bits.
#[derive(Clone, Copy, PartialEq, Eq)]
pub struct Turns {
    pub steps: u64,
    pub outcome: Outcome,
}

// One turn alone.
impl From<Report> for Turns {
    ghost from_gives = { λ report turns. (turns.steps ≡ report.steps) × (turns.outcome ≡ report.outcome) };

    fn from(report: Report) -> Turns {
        Turns {
            steps: u64::from(report.steps),
            outcome: report.outcome,
        }
    }
}
