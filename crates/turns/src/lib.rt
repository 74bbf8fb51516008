#![tactic(auto)]

// Turns do not matter: a run of some steps, and one of some more, is one run of all of them.
mod turns;

ghost use Rattle.std.specs.Prelude.{◌≡◌, ◌+◌};
ghost use Rattle.turns.specs.Both.{Answered};

use machine::{Machine, Outcome, Report, run};
use port::Port;
use program::Fault;
pub use turns::Turns;

// The steps of both turns, and why the second one ended.
fn together(report: Report, more: Report) -> Turns
    ensures steps { result.steps ≡ report.steps + more.steps }
    ensures outcome { result.outcome ≡ more.outcome }
{
    Turns {
        steps: u64::from(report.steps) + u64::from(more.steps),
        outcome: more.outcome,
    }
}

// Two turns, of which the second comes only where the allowance of the first was spent: together they are the run
// with both allowances.
pub fn run_turns<P: Port>(
    machine: &mut Machine,
    memory: &mut [i32],
    port: &mut P,
    first: u32,
    second: u32,
) -> Result<Turns, Fault>
    ensures { Answered (first + second) machine.old machine.new memory.old memory.new (P.meaning port.old) (P.meaning port.new) result }
{
    let report = run(machine, memory, port, first)?;
    if report.outcome != Outcome::Spent {
        return Ok(Turns::from(report));
    }
    let more = run(machine, memory, port, second)?;
    Ok(together(report, more))
}
