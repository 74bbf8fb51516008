ghost use Rattle.std.specs.Prelude.{◌≡◌, ◌+◌, ◌<◌, ◌≤◌, ◌^◌, ◌+ℤ◌, length, MatchResult};
ghost use Rattle.instructions.specs.Core.{core, top, under};
ghost use Rattle.instructions.specs.Tests.{placed, referred};

use crate::layout::Layout;
use crate::place::place;
use crate::processor::Processor;
use program::MachineCause;

// Stays: `holds` and `room` share one test, but one function of both would take its two ends and its cause each time.
impl<'a> Processor<'a> {
    // Does the stack have so many cells?
    pub(crate) fn holds(&self, count: usize) -> Result<(), MachineCause>
        requires { count ≤ 2 ^ 32 }
        ensures { MatchResult result (λ _. self.now.registers.sp + count ≤ length self.now.memory.now) (λ e. (length self.now.memory.now < self.now.registers.sp + count) × (e ≡ MachineCause.StackUnderflow)) }
    {
        if self.registers.sp + count > self.memory.len() {
            return Err(MachineCause::StackUnderflow);
        }
        Ok(())
    }

    // Is there room for so many cells more between heap and stack?
    pub(crate) fn room(&self, count: usize) -> Result<(), MachineCause>
        requires { count ≤ 2 ^ 32 }
        ensures { MatchResult result (λ _. self.now.registers.limit + count ≤ self.now.registers.sp) (λ e. (self.now.registers.sp < self.now.registers.limit + count) × (e ≡ MachineCause.StackMeetsHeap)) }
    {
        if self.registers.limit + count > self.registers.sp {
            return Err(MachineCause::StackMeetsHeap);
        }
        Ok(())
    }

    // The top cell of the stack.
    pub(crate) fn top(&self) -> Result<i32, MachineCause>
        ensures { MatchResult result (λ x. (self.now.registers.sp < length self.now.memory.now) × (x ≡ top (core self.now.registers self.now.memory.now))) (λ e. (length self.now.memory.now ≤ self.now.registers.sp) × (e ≡ MachineCause.StackUnderflow)) }
    {
        self.memory
            .get(self.registers.sp)
            .copied()
            .ok_or(MachineCause::StackUnderflow)
    }

    // The top cell, and the one under it.
    pub(crate) fn pair(&self) -> Result<(i32, i32), MachineCause>
        ensures { MatchResult result (λ x. (self.now.registers.sp + 1 < length self.now.memory.now) × (x.0 ≡ top (core self.now.registers self.now.memory.now)) × (x.1 ≡ under (core self.now.registers self.now.memory.now))) (λ e. (length self.now.memory.now ≤ self.now.registers.sp + 1) × (e ≡ MachineCause.StackUnderflow)) }
    {
        self.holds(2)?;
        Ok((
            self.memory[self.registers.sp],
            self.memory[self.registers.sp + 1],
        ))
    }

    // The address of a variable: fp + offset, if it lies in the stack in use.
    pub(crate) fn variable(&self, offset: i32) -> Result<usize, MachineCause>
        ensures { result ≡ placed MachineCause.OutsideStack self.now.registers.sp (length self.now.memory.now) (self.now.registers.fp +ℤ offset) }
    {
        place(
            MachineCause::OutsideStack,
            self.registers.fp,
            offset,
            self.registers.sp,
            self.memory.len(),
        )
    }

    // The address that a reference and its offset give.
    pub(crate) fn refer(
        &self,
        layout: Layout,
        reference: i32,
        offset: i32,
    ) -> Result<usize, MachineCause>
        ensures { result ≡ referred layout self.now.registers.limit reference offset }
    {
        if reference == 0 {
            return Err(MachineCause::NullReference);
        }
        place(
            MachineCause::ReferenceRange,
            reference,
            offset,
            layout.code,
            self.registers.limit,
        )
    }

    // The top cell, which leaves the stack.
    pub(crate) fn take(&mut self) -> Result<i32, MachineCause>
        ensures lender { self.new.memory.ghost_name ≡ self.old.memory.ghost_name }
        ensures memory { self.new.memory.now ≡ self.old.memory.now }
        ensures value { MatchResult result (λ x. (self.old.registers.sp < length self.old.memory.now) × (x ≡ top (core self.old.registers self.old.memory.now)) × (self.new.registers ≡ record self.old.registers { sp = self.old.registers.sp + 1 })) (λ e. (length self.old.memory.now ≤ self.old.registers.sp) × (e ≡ MachineCause.StackUnderflow) × (self.new.registers ≡ self.old.registers)) }
    {
        let x = self.top()?;
        self.registers.sp += 1;
        Ok(x)
    }
}
