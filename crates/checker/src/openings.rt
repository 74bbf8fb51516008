// The units: their entries and openings.
// Stays: an entry is a u32: as usize only widens it, where try_from would need an unwrap at each use.
ghost use Rattle.std.specs.Prelude.{◌^◌, ◌<◌, pos, Decides, MatchResult};
ghost use Rattle.checker.specs.Progress.{Ready, judged};
ghost use Rattle.plan.specs.Causes.{BadUnit};
ghost use Rattle.plan.specs.Programs.{InOpening, OpeningAt, Alone, Opens, Opened, Sits};

use crate::work::Work;
use isa::Opcode;
use plan::Coded;
use program::Unit;

// Does an address lie in the opening of a unit?
fn in_opening(units: &[Unit], a: usize) -> bool
    ensures { Decides result (InOpening units.now a) }
{
    units
        .iter()
        .any(|v| v.entry as usize <= a && a < v.entry as usize + 3)
}

// Does the opening stand at an address?
fn has_opening(program: &Coded, e: usize) -> bool
    requires { e < 2 ^ 32 }
    ensures { Decides result (OpeningAt program.now.code.now e) }
{
    program.opcode_at(e) == Some(Opcode::Loadfp)
        && program.opcode_at(e + 1) == Some(Opcode::Loadsp)
        && program.opcode_at(e + 2) == Some(Opcode::Storefp)
}

// Has no unit but the k-th this entry?
fn is_alone(units: &[Unit], k: usize, e: u32) -> bool
    ensures { Decides result (Alone units.now k e) }
{
    units
        .iter()
        .enumerate()
        .all(|(j, w)| j == k || w.entry != e)
}

impl Work<'_, '_> {
    // May an address have a place: does it begin an instruction, outside all openings?
    pub(crate) fn sits(&self, a: usize) -> bool
        requires { Ready self.now }
        ensures { Decides result (Sits (judged self.now) a) }
    {
        self.begins(a) && !in_opening(self.program.units, a)
    }

    // Is the k-th unit good: does its entry begin an instruction, hold the opening, and belong to no other unit?
    fn opens(&self, k: usize, v: Unit) -> bool
        requires { Ready self.now }
        ensures { Decides result (Opens (judged self.now) k v) }
    {
        let e = v.entry as usize;
        self.begins(e) && has_opening(&self.program, e) && is_alone(self.program.units, k, v.entry)
    }

    // Are all units good? If not, the error is the entry of the first bad one.
    pub(crate) fn units_open(&self) -> Result<(), u32>
        requires { Ready self.now }
        ensures { MatchResult result (λ _. Opened (judged self.now)) (λ e. BadUnit (judged self.now) (pos e)) }
    {
        // Stays: `enumerate().find(..)` was tried, and that the units before the found one are good stayed open.
        for (k, v) in self.program.units.iter().enumerate() {
            if !self.opens(k, *v) {
                return Err(v.entry);
            }
        }
        Ok(())
    }
}
