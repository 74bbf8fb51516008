ghost use Rattle.checker.specs.Starting.{Started};
ghost use Rattle.std.specs.Prelude.{◌≡◌};

use crate::passed::Passed;
use machine::{Machine, bench_start};
use program::{Assembled, Refused};

// The refusal of a start gives the program back as passed.
fn still_passed(back: Refused<Assembled>) -> Refused<Passed>
    ensures { (result.program.program ≡ back.program) × (result.fault ≡ back.fault) }
{
    let Refused { program, fault } = back;
    Refused {
        program: Passed { program },
        fault,
    }
}

// A passed program becomes a live machine over the memory that the check saw. It is taken away, so that it starts
// once; a memory of another length gives it back.
pub fn start(program: Passed, memory: &[i32]) -> Result<Machine, Refused<Passed>>
    ensures { Started program memory.now result }
{
    let Passed { program } = program;
    bench_start(program, memory).map_err(still_passed)
}
