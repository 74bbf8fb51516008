ghost use Rattle.machine.specs.Start.{Started};
ghost use Rattle.std.specs.Prelude.{◌≡◌};

use crate::state::{Machine, Status};
use instructions::{Layout, Registers};
use program::{Assembled, Fault, MachineCause, Place, Refused};

// An assembled program becomes a live machine over the memory that it was assembled into, unchecked: for the
// bench, where no motor is connected. A memory of another length gives the program back.
pub fn bench_start(program: Assembled, memory: &[i32]) -> Result<Machine, Refused<Assembled>>
    ensures { Started program.counts memory.now result }
{
    let counts = program.counts();
    if memory.len() != counts.cells {
        return Err(Refused {
            program,
            fault: Fault::Machine(MachineCause::MemoryLength, Place::Nowhere),
        });
    }
    let floor = counts.code + counts.data;
    let registers = Registers {
        pc: 0,
        sp: counts.cells,
        fp: i32::try_from(counts.cells).unwrap() - 1,
        hp: i32::try_from(floor).unwrap(),
        limit: floor + counts.heap,
    };
    Ok(Machine {
        layout: Layout {
            code: counts.code,
            floor,
        },
        cells: counts.cells,
        registers,
        status: Status::Live,
    })
}

impl Machine {
    pub fn registers(&self) -> Registers
        ensures { result ≡ self.now.registers }
    {
        self.registers
    }

    pub fn status(&self) -> Status
        ensures { result ≡ self.now.status }
    {
        self.status
    }
}
