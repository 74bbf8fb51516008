ghost use Rattle.std.specs.Prelude.{◌≡◌, ◌≤◌, length};
ghost use Rattle.instructions.specs.Core.{Sound, core};
ghost use Rattle.machine.specs.Console.{console};
ghost use Rattle.instructions.specs.Effects.{asks, Roomy};
ghost use Rattle.machine.specs.Step.{answered, step as one_step};
ghost use Rattle.machine.specs.Safe.{Fits};
ghost use Rattle.machine.specs.Steps.{step_left};

use crate::outcome::Outcome;
use crate::perform::perform;
use crate::print::print;
use instructions::{Effect, Layout, Registers, Text, put};
use port::Port;
use program::{Fault, Place};

// Does what an instruction asks of the port, and then moves the registers on to next.
// Stays: registers and memory apart; a Processor has one set, and the old set stays until the port has answered.
// Stays: `sound` and `openings` are clauses of settle, step and run_live; a struct of both would hold the port.
fn settle<P: Port>(
    effect: Effect,
    next: Registers,
    r: &mut Registers,
    memory: &mut [i32],
    port: &mut P,
) -> Result<(), Outcome>
    requires { (Sound next (length memory.old)) × ((Sound r.old (length memory.old)) × (Roomy effect next (length memory.old))) }
    ensures after { step_left result (core r.new memory.new) (console (P.meaning port.new)) ≡ answered (asks effect (core next memory.old)) (core r.old memory.old) (console (P.meaning port.old)) }
    ensures sound { Sound r.new (length memory.old) }
    ensures openings { (P.meaning port.old).openings ≤ (P.meaning port.new).openings }
{
    match effect {
        Effect::Done => *r = next,
        Effect::Halt => return Err(Outcome::Halted),
        Effect::Take => {
            let reading = port.take().ok_or(Outcome::Reading)?;
            *r = next;
            put(reading.value, r, memory);
        }
        Effect::Spell(byte, reference) => {
            print(Text::Byte(byte), port)?;
            memory[next.sp] = reference;
            *r = next;
        }
        Effect::Show(text) => {
            print(text, port)?;
            *r = next;
        }
    }
    Ok(())
}

// One step: the instruction at pc, and what the port gives or takes for it. An outcome ends the run: the step was
// HALT, or nothing was done.
// Stays: layout, registers and memory apart here too, since settle has two sets of registers.
#[tactic(auto, using(crate::proofs::Stepping::answered_held), unfolding(crate::specs::Step::step))]
pub(crate) fn step<P: Port>(
    layout: Layout,
    r: &mut Registers,
    memory: &mut [i32],
    port: &mut P,
) -> Result<(), Outcome>
    requires { Fits layout r.old (length memory.old) }
    ensures after { step_left result (core r.new memory.new) (console (P.meaning port.new)) ≡ one_step layout (core r.old memory.old) (console (P.meaning port.old)) }
    ensures sound { Sound r.new (length memory.old) }
    ensures openings { (P.meaning port.old).openings ≤ (P.meaning port.new).openings }
{
    let mut next = *r;
    let effect = perform(layout, &mut next, memory).map_err(|cause| Outcome::Fault(Fault::Machine(
        cause,
        Place::Counter(r.pc),
    )))?;
    settle(effect, next, r, memory, port)
}
