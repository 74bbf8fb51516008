ghost use Rattle.instructions.specs.Does.{Does};
ghost use Rattle.instructions.specs.Stack.{flags, letters, numbers, strings};

use crate::effect::{Effect, Text};
use crate::layout::Layout;
use crate::place::letter;
use crate::processor::Processor;
use program::MachineCause;

impl<'a> Processor<'a> {
    // Stays: each is one line of the definitions; what two share is in cells, holds, room and take.
    pub(crate) fn show_flag(&mut self) -> Result<Effect, MachineCause>
        ensures { Does flags self.old self.new result }
    {
        let flag = self.take()? != 0;
        Ok(Effect::Show(Text::Flag(flag)))
    }

    pub(crate) fn show_letter(&mut self) -> Result<Effect, MachineCause>
        ensures { Does letters self.old self.new result }
    {
        let byte = letter(self.top()?)?;
        self.registers.sp += 1;
        Ok(Effect::Show(Text::Byte(byte)))
    }

    pub(crate) fn show_number(&mut self) -> Result<Effect, MachineCause>
        ensures { Does numbers self.old self.new result }
    {
        let number = self.take()?;
        Ok(Effect::Show(Text::Number(number)))
    }

    pub(crate) fn show_string(&mut self, layout: Layout, at: i32) -> Result<Effect, MachineCause>
        ensures { Does (strings layout at) self.old self.new result }
    {
        let reference = self.top()?;
        let address = self.refer(layout, reference, 0)?;
        if self.memory[address] == 0 {
            self.registers.sp += 1;
            return Ok(Effect::Done);
        }
        let byte = letter(self.memory[address])?;
        self.registers.pc = at;
        Ok(Effect::Spell(byte, reference + 1))
    }
}
