ghost use Rattle.controller.specs.Calls.{controlled, RunLived, OfferLived, ClearLived};
ghost use Rattle.machine.specs.Turns.{Answered};
ghost use Rattle.port.specs.Meaning.{Offered, Cleared};
ghost use Rattle.std.specs.Prelude.{◌≡◌};

use machine::{Machine, Report, run};
use port::{Port, Reading};
use program::Fault;

// A run of a controller. Over any port, what it does is a call of the controller's life.
pub fn run_controller<P: Port>(
    machine: &mut Machine,
    memory: &mut [i32],
    port: &mut P,
    allowance: u32,
) -> Result<Report, Fault>
    ensures answered { Answered allowance machine.old machine.new memory.old memory.new (P.meaning port.old) (P.meaning port.new) result }
    ensures lived { RunLived allowance (controlled machine.old memory.old (P.meaning port.old)) result (controlled machine.new memory.new (P.meaning port.new)) }
{
    run(machine, memory, port, allowance)
}

// An offer to a controller's port.
pub fn offer_reading<P: Port>(port: &mut P, reading: Reading) -> Result<(), Fault>
    ensures offered { Offered (P.meaning port.old) reading result (P.meaning port.new) }
    ensures lived { OfferLived reading (P.meaning port.old) result (P.meaning port.new) }
{
    port.offer(reading)
}

// A clear of a controller's port.
pub fn clear_shown<P: Port>(port: &mut P)
    ensures cleared { Cleared (P.meaning port.old) (P.meaning port.new) }
    ensures lived { ClearLived (P.meaning port.old) (P.meaning port.new) }
{
    port.clear();
}
