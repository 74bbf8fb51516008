ghost use Rattle.instructions.specs.Does.{Does};
ghost use Rattle.instructions.specs.Stack.{jumps, branches, calls, returns};

use crate::effect::Effect;
use crate::place::cells;
use crate::processor::Processor;
use program::MachineCause;

impl<'a> Processor<'a> {
    pub(crate) fn jump(&mut self, to: i32) -> Result<Effect, MachineCause>
        ensures { Does (jumps to) self.old self.new result }
    {
        self.registers.pc = to;
        Ok(Effect::Done)
    }

    // Goes on at `to` where the top cell, as true or false, is `when`.
    pub(crate) fn branch(&mut self, when: bool, to: i32) -> Result<Effect, MachineCause>
        ensures { Does (branches when to) self.old self.new result }
    {
        if (self.take()? != 0) == when {
            self.registers.pc = to;
        }
        Ok(Effect::Done)
    }

    pub(crate) fn call(&mut self) -> Result<Effect, MachineCause>
        ensures { Does calls self.old self.new result }
    {
        let to = self.top()?;
        self.memory[self.registers.sp] = self.registers.pc;
        self.registers.pc = to;
        Ok(Effect::Done)
    }

    pub(crate) fn return_from(&mut self, count: i32) -> Result<Effect, MachineCause>
        ensures { Does (returns count) self.old self.new result }
    {
        let count = cells(count)? + 1;
        self.holds(count)?;
        self.registers.pc = self.memory[self.registers.sp];
        self.registers.sp += count;
        Ok(Effect::Done)
    }
}
