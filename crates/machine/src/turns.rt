ghost use Rattle.std.specs.Prelude.{◌≡◌, ◌≤◌, length};
ghost use Rattle.instructions.specs.Core.{Sound, core};
ghost use Rattle.machine.specs.Console.{console};
ghost use Rattle.machine.specs.Run.{ran, runs};
ghost use Rattle.machine.specs.Safe.{Fits, Kept};

use crate::outcome::{Outcome, Report};
use crate::step::step;
use instructions::{Layout, Registers};
use port::Port;

// Steps until the allowance is spent or one ends the run.
pub(crate) fn run_live<P: Port>(
    layout: Layout,
    r: &mut Registers,
    memory: &mut [i32],
    port: &mut P,
    allowance: u32,
) -> Report
    requires { Fits layout r.old (length memory.old) }
    ensures after { ran result.steps result.outcome (core r.new memory.new) (console (P.meaning port.new)) ≡ runs layout 0 allowance (core r.old memory.old) (console (P.meaning port.old)) }
    ensures sound { Sound r.new (length memory.old) }
    ensures code { Kept layout r.old memory.old r.new memory.new }
    ensures openings { (P.meaning port.old).openings ≤ (P.meaning port.new).openings }
{
    for done in 0..allowance {
        if let Err(outcome) = step(layout, r, memory, port) {
            return Report {
                steps: done + outcome.last_step(),
                outcome,
            };
        }
    }
    Report {
        steps: allowance,
        outcome: Outcome::Spent,
    }
}
