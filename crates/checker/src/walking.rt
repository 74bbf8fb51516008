// The walks from the roots, one address at a time.
// Stays: an address is a u32: as usize only widens it, where try_from would need an unwrap at each use.
ghost use Rattle.std.specs.Prelude.{◌≡◌, ℕ, ◌<◌, length, pos, Some, None, MatchOption, MatchResult, slice_index_or};
ghost use Rattle.checker.specs.Progress.{Ready, Moved, places, judged};
ghost use Rattle.checker.specs.Work.{SetAt, Route, Done, Rooted};
ghost use Rattle.isa.specs.Code.{Divided};
ghost use Rattle.plan.specs.Causes.{Due};
ghost use Rattle.plan.specs.Lawful.{Holds, Least, plan_of};
ghost use Rattle.plan.specs.Programs.{Opened, Sits};
ghost use Rattle.plan.specs.Rules.{Steps, to as goes};
ghost use Rattle.plan.specs.Rulings.{successors};

use crate::finding::Finding;
use crate::work::Work;
use isa::instruction_at;
use plan::{Next, Planned, Successor};
use program::CheckCause;

impl Work<'_, '_> {
    // The address, if it may have a place.
    fn seat(&self, to: i64) -> Option<usize>
        requires { Ready self.now }
        ensures { MatchOption result ((a : ℕ) → to ≡ pos a → Sits (judged self.now) a → ⊥) (λ a. (to ≡ pos a) × Sits (judged self.now) a) }
    {
        let a = usize::try_from(to).ok()?;
        self.sits(a).then_some(a)
    }

    // Brings a walk to an address: it gets its place, or has it.
    fn arrive(&mut self, to: i64, at: Planned) -> Result<(), Finding>
        requires ready { Ready self.old }
        requires route { Route (judged self.old) (places self.old) to at.body at.depth }
        ensures lender { self.new.plan.ghost_name ≡ self.old.plan.ghost_name }
        ensures arrived { MatchResult result (λ _. Moved (judged self.old) self.old self.new × Holds (plan_of (places self.new)) at.body (goes to at.depth)) (λ f. Due (judged self.old) f.cause f.address) }
    {
        let Some(a) = self.seat(to) else {
            return Err(Finding {
                cause: CheckCause::NoInstruction,
                address: to,
            });
        };
        match self.place_at(a) {
            Some(other) if other == at => Ok(()),
            Some(_) => Err(Finding {
                cause: CheckCause::DifferentWays,
                address: to,
            }),
            None => {
                self.plan[a] = Some(at);
                let address = u32::try_from(a).unwrap();
                self.list.push(address).unwrap();
                Ok(())
            }
        }
    }

    // Brings a walk on to a successor, in the same body.
    fn follow(&mut self, body: u8, s: Successor) -> Result<(), Finding>
        requires ready { Ready self.old }
        requires route { Route (judged self.old) (places self.old) s.address body s.depth }
        ensures lender { self.new.plan.ghost_name ≡ self.old.plan.ghost_name }
        ensures arrived { MatchResult result (λ _. Moved (judged self.old) self.old self.new × Holds (plan_of (places self.new)) body s) (λ f. Due (judged self.old) f.cause f.address) }
    {
        let depth = s.depth;
        self.arrive(s.address, Planned { body, depth })
    }

    // What comes after the place at an address.
    fn after(&self, address: u32, at: Planned) -> Result<Next, Finding>
        requires ready { Ready self.now }
        requires placed { slice_index_or (places self.now) address None ≡ Some at }
        requires divided { Divided self.now.program.code.now }
        ensures { MatchResult result (λ n. Steps (judged self.now) address at.body at.depth (successors n)) (λ f. Due (judged self.now) f.cause f.address) }
    {
        let program = self.program;
        let i = instruction_at(program.code, address as usize).unwrap();
        program.rule_at(address, at, i).map_err(|cause| Finding {
            cause,
            address: i64::from(address),
        })
    }

    // Brings the walks to the place at an address on to its successors.
    fn visit(&mut self, address: u32) -> Result<(), Finding>
        requires ready { Ready self.old }
        requires inside { address < length self.old.program.code.now }
        requires placed { SetAt (places self.old) address }
        requires divided { Divided self.old.program.code.now }
        ensures lender { self.new.plan.ghost_name ≡ self.old.plan.ghost_name }
        ensures visited { MatchResult result (λ _. Moved (judged self.old) self.old self.new × Done (judged self.old) (places self.new) address) (λ f. Due (judged self.old) f.cause f.address) }
    {
        let at = self.place_at(address as usize).unwrap();
        let next = self.after(address, at)?;
        match next {
            Next::Last => Ok(()),
            Next::Onward(s) => self.follow(at.body, s),
            Next::Fork(s, t) => {
                self.follow(at.body, s)?;
                self.follow(at.body, t)
            }
        }
    }

    // Brings the walks of no step to the roots: 0, and the address after each opening.
    pub(crate) fn begin(&mut self) -> Result<(), Finding>
        requires ready { Ready self.old }
        ensures lender { self.new.plan.ghost_name ≡ self.old.plan.ghost_name }
        ensures begun { MatchResult result (λ _. Moved (judged self.old) self.old self.new × Rooted (judged self.old) (places self.new)) (λ f. Due (judged self.old) f.cause f.address) }
    {
        let units = self.program.units;
        self.arrive(0, Planned { body: 0, depth: 0 })?;
        // Stays: `(1u8..).zip(units)` was tried, and what a step of it gives stayed open in the proof.
        for (k, v) in units.iter().enumerate() {
            let body = u8::try_from(k + 1).unwrap();
            self.arrive(i64::from(v.entry) + 3, Planned { body, depth: 0 })?;
        }
        Ok(())
    }

    // Visits each address of the list, in order, while the visits add to it.
    pub(crate) fn drain(&mut self) -> Result<(), Finding>
        requires ready { Ready self.old }
        requires rooted { Rooted (judged self.old) (places self.old) }
        requires divided { Divided self.old.program.code.now }
        requires opened { Opened (judged self.old) }
        ensures lender { self.new.plan.ghost_name ≡ self.old.plan.ghost_name }
        ensures drained { MatchResult result (λ _. Least (judged self.old) (plan_of (places self.new))) (λ f. Due (judged self.old) f.cause f.address) }
    {
        // Stays: the list grows while it is read, so no iterator over it can be held.
        let mut i = 0;
        while let Some(address) = self.list.get(i) {
            self.visit(address)?;
            i += 1;
        }
        Ok(())
    }
}
