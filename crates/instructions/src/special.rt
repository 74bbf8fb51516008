ghost use Rattle.instructions.specs.Does.{Does};
ghost use Rattle.instructions.specs.Moves.{at_pc, at_fp, at_hp};
ghost use Rattle.instructions.specs.Stack.{pops, tops, limits};

use crate::effect::Effect;
use crate::layout::Layout;
use crate::place::place;
use crate::processor::Processor;
use program::MachineCause;

// Stays: one function for pc, fp and hp keeps the three assignments, in a match or closures, and names the register.
impl<'a> Processor<'a> {
    pub(crate) fn store_pc(&mut self) -> Result<Effect, MachineCause>
        ensures { Does (pops at_pc) self.old self.new result }
    {
        self.registers.pc = self.take()?;
        Ok(Effect::Done)
    }

    pub(crate) fn store_fp(&mut self) -> Result<Effect, MachineCause>
        ensures { Does (pops at_fp) self.old self.new result }
    {
        self.registers.fp = self.take()?;
        Ok(Effect::Done)
    }

    pub(crate) fn store_hp(&mut self) -> Result<Effect, MachineCause>
        ensures { Does (pops at_hp) self.old self.new result }
    {
        self.registers.hp = self.take()?;
        Ok(Effect::Done)
    }

    pub(crate) fn store_sp(&mut self) -> Result<Effect, MachineCause>
        ensures { Does tops self.old self.new result }
    {
        self.registers.sp = place(
            MachineCause::StackPointer,
            self.top()?,
            0,
            self.registers.limit,
            self.memory.len() + 1,
        )?;
        Ok(Effect::Done)
    }

    pub(crate) fn store_hl(&mut self, layout: Layout) -> Result<Effect, MachineCause>
        ensures { Does (limits layout) self.old self.new result }
    {
        self.registers.limit = place(
            MachineCause::HeapLimit,
            self.top()?,
            1,
            layout.floor,
            self.registers.sp + 2,
        )?;
        self.registers.sp += 1;
        Ok(Effect::Done)
    }
}
