// The units of a program, by their entries and by their bodies.
// Stays: an address is a u32: as usize only widens it, where try_from would need an unwrap at each use.
ghost use Rattle.std.specs.Prelude.{◌≡◌, ℕ, suc, ℤ, pos, Some, Decides, MatchOption, ◌≢◌};
ghost use Rattle.isa.specs.Code.{instruction};
ghost use Rattle.isa.specs.declared.opcode.Opcode.TheVariants.{Ret};
ghost use Rattle.plan.specs.Programs.{seen, Listed};
ghost use Rattle.plan.specs.Rules.{Closes, InFrame};
ghost use Rattle.program.specs.declared.unit.Unit.{Unit as UnitRecord};

use crate::coded::Coded;
use crate::planned::Planned;
use isa::{Opcode, instruction_at};
use program::Unit;

impl Coded<'_> {
    // The unit whose entry a cell holds.
    pub(crate) fn unit_at(&self, start: i32) -> Option<Unit>
        ensures { MatchOption result ((k : ℕ) (v : UnitRecord) → Listed self.now.units.now k v → start ≢ pos v.entry) (λ v. (k : ℕ) × Listed self.now.units.now k v × (start ≡ pos v.entry)) }
    {
        self.units
            .iter()
            .find(|v| i64::from(start) == i64::from(v.entry))
            .copied()
    }

    // The unit of a body; the main program is none.
    fn unit_of(&self, body: u8) -> Option<Unit>
        ensures { MatchOption result ((k : ℕ) (v : UnitRecord) → Listed self.now.units.now k v → body ≢ suc k) (λ v. (k : ℕ) × Listed self.now.units.now k v × (body ≡ suc k)) }
    {
        let k = usize::from(body).checked_sub(1)?;
        self.units.get(k).copied()
    }

    // The count of the RET at an address.
    fn ret_at(&self, address: usize) -> Option<i32>
        ensures { MatchOption result ((k : ℤ) → instruction self.now.code.now address ≢ Some (record { op = Ret; argument = k })) (λ k. instruction self.now.code.now address ≡ Some (record { op = Ret; argument = k })) }
    {
        let i = instruction_at(self.code, address)?;
        (i.op == Opcode::Ret).then_some(i.argument)
    }

    // Does a STOREFP at this place end its unit?
    pub(crate) fn closes(&self, address: u32, at: Planned) -> bool
        ensures { Decides result ((k : ℕ) × (v : UnitRecord) × Closes (seen self.now) address at.body at.depth k v) }
    {
        let count = self.ret_at(address as usize + 1);
        self.unit_of(at.body)
            .is_some_and(|v| at.depth == 0 && count == Some(i32::from(v.arguments)))
    }

    // Is an offset in the frame of a place?
    pub(crate) fn in_frame(&self, at: Planned, offset: i32) -> bool
        ensures { Decides result (InFrame self.now.units.now at.body at.depth offset) }
    {
        if offset <= 0 {
            return -i32::from(at.depth) < offset;
        }
        self.unit_of(at.body).is_some_and(|v| {
            (3..=i32::from(v.arguments) + 2 + i32::from(v.results)).contains(&offset)
        })
    }
}
