ghost use Rattle.instructions.specs.Core.{top};
ghost use Rattle.instructions.specs.Does.{Does};
ghost use Rattle.arithmetic.specs.Cells.{binary, unary};
ghost use Rattle.instructions.specs.Core.{takes};
ghost use Rattle.instructions.specs.Tests.{uses, room};
ghost use Rattle.instructions.specs.Stack.{joins, turns, pushes, pops, swaps, reserves, releases};

use crate::effect::Effect;
use crate::place::cells;
use crate::processor::Processor;
use arithmetic::{Binary, Unary};
use program::MachineCause;

impl<'a> Processor<'a> {
    // Stays: a closure in place of the enum needs a ghost value at each call for what it computes.
    pub(crate) fn join(&mut self, op: Binary) -> Result<Effect, MachineCause>
        ensures { Does (joins (binary op)) self.old self.new result }
    {
        let (second, first) = self.pair()?;
        let value = arithmetic::compute(op, first, second)?;
        self.memory[self.registers.sp + 1] = value;
        self.registers.sp += 1;
        Ok(Effect::Done)
    }

    pub(crate) fn turn(&mut self, op: Unary) -> Result<Effect, MachineCause>
        ensures { Does (turns (unary op)) self.old self.new result }
    {
        let value = self.top()?;
        self.memory[self.registers.sp] = arithmetic::turn(op, value)?;
        Ok(Effect::Done)
    }

    pub(crate) fn push(&mut self, x: i32) -> Result<Effect, MachineCause>
        ensures { Does (pushes (λ _. x)) self.old self.new result }
    {
        self.room(1)?;
        self.registers.sp -= 1;
        self.memory[self.registers.sp] = x;
        Ok(Effect::Done)
    }

    pub(crate) fn duplicate(&mut self) -> Result<Effect, MachineCause>
        ensures { Does (uses 1 (pushes top)) self.old self.new result }
    {
        self.push(self.top()?)
    }

    pub(crate) fn pop(&mut self) -> Result<Effect, MachineCause>
        ensures { Does (pops (λ _ c. c)) self.old self.new result }
    {
        let _ = self.take()?;
        Ok(Effect::Done)
    }

    pub(crate) fn swap(&mut self) -> Result<Effect, MachineCause>
        ensures { Does swaps self.old self.new result }
    {
        self.holds(2)?;
        self.memory.swap(self.registers.sp + 1, self.registers.sp);
        Ok(Effect::Done)
    }

    // Stays: each is one line of the definitions; what two share is in cells, holds, room and take.
    pub(crate) fn reserve(&mut self, count: i32) -> Result<Effect, MachineCause>
        ensures { Does (reserves count) self.old self.new result }
    {
        let count = cells(count)?;
        self.room(count)?;
        self.registers.sp -= count;
        Ok(Effect::Done)
    }

    pub(crate) fn release(&mut self, count: i32) -> Result<Effect, MachineCause>
        ensures { Does (releases count) self.old self.new result }
    {
        let count = cells(count)?;
        self.holds(count)?;
        self.registers.sp += count;
        Ok(Effect::Done)
    }

    // Asks for a reading, for which there is room.
    pub(crate) fn ask(&mut self) -> Result<Effect, MachineCause>
        ensures { Does (room 1 takes) self.old self.new result }
    {
        self.room(1)?;
        Ok(Effect::Take)
    }
}
