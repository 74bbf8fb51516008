ghost use Rattle.instructions.specs.Does.{Does};
ghost use Rattle.instructions.specs.Stack.{loads, stores, fetches, assigns};

use crate::effect::Effect;
use crate::layout::Layout;
use crate::processor::Processor;
use program::MachineCause;

impl<'a> Processor<'a> {
    pub(crate) fn load(&mut self, offset: i32) -> Result<Effect, MachineCause>
        ensures { Does (loads offset) self.old self.new result }
    {
        let address = self.variable(offset)?;
        let value = self.memory[address];
        self.push(value)
    }

    pub(crate) fn store(&mut self, offset: i32) -> Result<Effect, MachineCause>
        ensures { Does (stores offset) self.old self.new result }
    {
        let value = self.top()?;
        let address = self.variable(offset)?;
        self.memory[address] = value;
        self.registers.sp += 1;
        Ok(Effect::Done)
    }

    pub(crate) fn load_reference(
        &mut self,
        layout: Layout,
        offset: i32,
    ) -> Result<Effect, MachineCause>
        ensures { Does (fetches layout offset) self.old self.new result }
    {
        let address = self.refer(layout, self.top()?, offset)?;
        self.memory[self.registers.sp] = self.memory[address];
        Ok(Effect::Done)
    }

    pub(crate) fn store_reference(
        &mut self,
        layout: Layout,
        offset: i32,
    ) -> Result<Effect, MachineCause>
        ensures { Does (assigns layout offset) self.old self.new result }
    {
        let (value, reference) = self.pair()?;
        let address = self.refer(layout, reference, offset)?;
        self.memory[address] = value;
        self.registers.sp += 2;
        Ok(Effect::Done)
    }
}
