ghost use Rattle.machine.specs.Turns.{Answered};

use crate::outcome::{Outcome, Report};
use crate::state::{Machine, Status};
use crate::turns::run_live;
use port::Port;
use program::{Fault, MachineCause, Place};

// Runs a machine for at most as many steps as the allowance has, over its memory and any port. A memory of another
// length than the program's is refused. A halted or faulted machine answers as it did, with no step.
pub fn run<P: Port>(
    machine: &mut Machine,
    memory: &mut [i32],
    port: &mut P,
    allowance: u32,
) -> Result<Report, Fault>
    ensures { Answered allowance machine.old machine.new memory.old memory.new (P.meaning port.old) (P.meaning port.new) result }
{
    if memory.len() != machine.cells {
        return Err(Fault::Machine(MachineCause::MemoryLength, Place::Nowhere));
    }
    match machine.status {
        Status::Halted => Ok(Report {
            steps: 0,
            outcome: Outcome::Halted,
        }),
        Status::Faulted(fault) => Ok(Report {
            steps: 0,
            outcome: Outcome::Fault(fault),
        }),
        Status::Live => {
            let mut registers = machine.registers;
            let report = run_live(machine.layout, &mut registers, memory, port, allowance);
            machine.registers = registers;
            machine.status = Status::from(report.outcome);
            Ok(report)
        }
    }
}
