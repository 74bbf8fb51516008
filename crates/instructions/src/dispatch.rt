ghost use Rattle.std.specs.Prelude.{◌≡◌, ◌+◌, ◌≤◌, length};
ghost use Rattle.instructions.specs.Core.{Sound, core};
ghost use Rattle.instructions.specs.Does.{Does};
ghost use Rattle.instructions.specs.Effects.{left, Held};
ghost use Rattle.instructions.specs.Exec.{exec};
ghost use Rattle.instructions.specs.Moves.{pushed};

use crate::effect::{Effect, Text};
use crate::layout::Layout;
use crate::processor::Processor;
use crate::registers::Registers;
use arithmetic::{Binary, Unary};
use isa::Opcode;
use program::MachineCause;

impl<'a> Processor<'a> {
    // Stays: one match over a closed enum, a line an opcode; a table of closures would name each opcode too.
    #[inline(always)]
    fn execute(
        &mut self,
        layout: Layout,
        at: i32,
        op: Opcode,
        argument: i32,
    ) -> Result<Effect, MachineCause>
        ensures { Does (exec layout at op argument) self.old self.new result }
    {
        match op {
            Opcode::Push => self.push(argument),
            Opcode::Add => self.join(Binary::Add),
            Opcode::Sub => self.join(Binary::Sub),
            Opcode::Mul => self.join(Binary::Mul),
            Opcode::Div => self.join(Binary::Div),
            Opcode::Mod => self.join(Binary::Mod),
            Opcode::Neg => self.turn(Unary::Neg),
            Opcode::And => self.join(Binary::And),
            Opcode::Or => self.join(Binary::Or),
            Opcode::Not => self.turn(Unary::Not),
            Opcode::Eq => self.join(Binary::Eq),
            Opcode::Ne => self.join(Binary::Ne),
            Opcode::Lt => self.join(Binary::Lt),
            Opcode::Gt => self.join(Binary::Gt),
            Opcode::Le => self.join(Binary::Le),
            Opcode::Ge => self.join(Binary::Ge),
            Opcode::Dup => self.duplicate(),
            Opcode::Pop => self.pop(),
            Opcode::Swap => self.swap(),
            Opcode::Jump => self.jump(argument),
            Opcode::Bf => self.branch(false, argument),
            Opcode::Bt => self.branch(true, argument),
            Opcode::Nop => Ok(Effect::Done),
            Opcode::Read => self.ask(),
            Opcode::Bprint => self.show_flag(),
            Opcode::Cprint => self.show_letter(),
            Opcode::Iprint => self.show_number(),
            Opcode::Sprint => self.show_string(layout, at),
            Opcode::Prnln => Ok(Effect::Show(Text::Byte(10))),
            Opcode::Load => self.load(argument),
            Opcode::Store => self.store(argument),
            Opcode::Loadref => self.load_reference(layout, argument),
            Opcode::Storeref => self.store_reference(layout, argument),
            Opcode::Deref => self.load_reference(layout, 0),
            Opcode::Call => self.call(),
            Opcode::Loadfp => self.push(self.registers.fp),
            Opcode::Loadsp => self.push(i32::try_from(self.registers.sp).unwrap() - 1),
            Opcode::Storefp => self.store_fp(),
            Opcode::Rmem => self.reserve(argument),
            Opcode::Fmem => self.release(argument),
            Opcode::Ret => self.return_from(argument),
            Opcode::Halt => Ok(Effect::Halt),
            Opcode::Loadpc => self.push(at),
            Opcode::Storepc => self.store_pc(),
            Opcode::Storesp => self.store_sp(),
            Opcode::Loadhp => self.push(self.registers.hp),
            Opcode::Storehp => self.store_hp(),
            Opcode::Loadhl => self.push(i32::try_from(self.registers.limit).unwrap() - 1),
            Opcode::Storehl => self.store_hl(layout),
        }
    }
}

// Does an instruction at an address with its argument cell, but for what it asks of the port; pc stands past it.
// Inlined into each run: out of line, the copy of the registers into a processor and back costs a quarter of a step.
#[inline(always)]
pub fn execute(
    layout: Layout,
    at: i32,
    op: Opcode,
    argument: i32,
    r: &mut Registers,
    memory: &mut [i32],
) -> Result<Effect, MachineCause>
    requires { Sound r.old (length memory.old) }
    ensures after { left result r.new memory.new ≡ exec layout at op argument (core r.old memory.old) }
    ensures sound { Sound r.new (length memory.old) }
    ensures held { Held result r.new memory.old memory.new }
{
    let mut processor = Processor {
        registers: *r,
        memory,
    };
    let result = processor.execute(layout, at, op, argument);
    *r = processor.registers;
    result
}

// Pushes x where there is room for it.
// Stays: `push` writes so too, but tests for room; put can't fail, since its caller has tested.
pub fn put(x: i32, r: &mut Registers, memory: &mut [i32])
    requires { (Sound r.old (length memory.old)) × (r.old.limit + 1 ≤ r.old.sp) }
    ensures after { core r.new memory.new ≡ pushed x (core r.old memory.old) }
    ensures sound { Sound r.new (length memory.old) }
{
    r.sp -= 1;
    memory[r.sp] = x;
}
