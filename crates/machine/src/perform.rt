ghost use Rattle.std.specs.Prelude.{◌≡◌, ◌≤◌, length};
ghost use Rattle.instructions.specs.Core.{Sound, core};
ghost use Rattle.instructions.specs.Effects.{left, Held};
ghost use Rattle.machine.specs.Safe.{Fits};
ghost use Rattle.machine.specs.Step.{performed};

use crate::fetch::{Fetched, fetch};
use instructions::{Effect, Layout, Registers, execute};
use program::MachineCause;

// Does the instruction at pc, but for what it asks of the port.
// Inlined into each run, as `execute` is: over two kinds of ports there are two, and out of line a step takes twice as
// long.
#[inline(always)]
#[tactic(auto, unfolding(crate::specs::Step::performed))]
pub(crate) fn perform(
    layout: Layout,
    r: &mut Registers,
    memory: &mut [i32],
) -> Result<Effect, MachineCause>
    requires { Fits layout r.old (length memory.old) }
    ensures after { left result r.new memory.new ≡ performed layout (core r.old memory.old) }
    ensures sound { Sound r.new (length memory.old) }
    ensures held { Held result r.new memory.old memory.new }
{
    let at = r.pc;
    let Fetched { instruction, next } = fetch(layout.code, at, memory).ok_or(
        MachineCause::NoInstruction,
    )?;
    r.pc = next;
    execute(layout, at, instruction.op, instruction.argument, r, memory)
}
