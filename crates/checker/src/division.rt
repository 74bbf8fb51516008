// How the code divides into instructions. While the check works, each address that begins one has a mark in the plan
// table until it has its place.
ghost use Rattle.std.specs.Prelude.{◌≡◌, ℕ, ◌<◌, ◌≤◌, [], length, None, Decides, MatchResult, slice_index_or};
ghost use Rattle.checker.specs.Progress.{Ready, Underway, came, judged, places};
ghost use Rattle.checker.specs.Work.{place_in, places_of};
ghost use Rattle.isa.specs.Code.{Divides, Divided};
ghost use Rattle.plan.specs.Programs.{Stops, seen};
ghost use Rattle.slots.specs.Items.{items, room};

use crate::work::Work;
use isa::{instruction_at, length_of};
use plan::{Coded, Planned};
use slots::SlotList;

// The depth of a place is at most this.
const DEEPEST: u16 = 1000;

// Stays: a mark is a pair deeper than any place, since the slots are the caller's and have no third case.
const MARK: Planned = Planned {
    body: 0,
    depth: DEEPEST + 1,
};

// The place that is held at an address: a mark is none.
fn place_in(held: Option<Planned>) -> Option<Planned>
    ensures { result ≡ place_in held }
{
    held.filter(|place| place.depth <= DEEPEST)
}

// Takes the marks away and leaves the places.
// Stays: change_each is of a SlotList, and the plan table is a slice that its owner lends.
pub(crate) fn unmark(plan: &mut [Option<Planned>])
    ensures { plan.new ≡ places_of plan.old }
{
    for held in plan.iter_mut() {
        *held = place_in(*held);
    }
}

impl<'a, 's> Work<'a, 's> {
    // The work before its first step.
    pub(crate) fn new(
        program: Coded<'a>,
        plan: &'a mut [Option<Planned>],
        list: &'a mut SlotList<'s, u32>,
    ) -> Work<'a, 's>
        requires small { length program.code.now ≤ 65536 }
        requires few { length program.units.now ≤ 64 }
        requires table { length program.code.now ≤ length plan.old }
        requires slots { length program.code.now ≤ room list.old }
        ensures lender { result.plan.ghost_name ≡ plan.entry.ghost_name }
        ensures parts { (judged result ≡ seen program.entry) × (result.plan.now ≡ plan.old) × (came result ≡ items list.old) }
    {
        Work {
            program,
            plan,
            list,
        }
    }

    // Marks each address that begins an instruction, before the work has an address, in a table that is unset. The
    // error is the address at which the code cannot be divided.
    pub(crate) fn mark(&mut self) -> Result<(), usize>
        requires unset { (a : ℕ) → slice_index_or self.old.plan.now a None ≡ None }
        requires empty { came self.old ≡ [] }
        ensures lender { self.new.plan.ghost_name ≡ self.old.plan.ghost_name }
        ensures marked { MatchResult result (λ _. Underway (judged self.old) self.new × Divided self.old.program.code.now) (λ a. Stops self.old.program.code.now a) }
    {
        // Stays: each step goes on by the length of the instruction that it finds, and writes; no iterator walks so.
        let code = self.program.code;
        let mut a = 0;
        while a < code.len() {
            let Some(i) = instruction_at(code, a) else {
                return Err(a);
            };
            self.plan[a] = Some(MARK);
            a += length_of(i.op);
        }
        Ok(())
    }

    // The place that the table has for an address.
    pub(crate) fn place_at(&self, a: usize) -> Option<Planned>
        requires { a < length self.now.plan.now }
        ensures { result ≡ slice_index_or (places self.now) a None }
    {
        place_in(self.plan[a])
    }

    // Does an instruction begin at an address?
    pub(crate) fn begins(&self, a: usize) -> bool
        requires { Ready self.now }
        ensures { Decides result ((a < length self.now.program.code.now) × Divides self.now.program.code.now a) }
    {
        let plan = &*self.plan;
        a < self.program.code.len() && plan[a].is_some()
    }
}
