ghost use Rattle.std.specs.Prelude.{◌≡◌, ℕ, ◌≤◌, length, replicate, None, MatchResult, slice_index_or};
ghost use Rattle.checker.specs.Verdict.{Answered};
ghost use Rattle.checker.specs.Work.{places_of};
ghost use Rattle.plan.specs.Causes.{Due, Turn};
ghost use Rattle.plan.specs.Lawful.{Least, plan_of};
ghost use Rattle.plan.specs.Programs.{seen};
ghost use Rattle.program.specs.declared.fault.Fault.TheVariants.{Check};

use crate::division::unmark;
use crate::finding::Finding;
use crate::passed::Passed;
use crate::work::Work;
use plan::{Coded, Planned};
use program::{Assembled, CheckCause, Counts, Fault, Place, Refused, Unit};
use slots::SlotList;

// Makes the least lawful plan in a table that is unset, or finds why there is none. Marks are left beside the places.
fn explore(program: &Coded, plan: &mut [Option<Planned>], visits: &mut [u32]) -> Result<(), Finding>
    requires small { length program.now.code.now ≤ 65536 }
    requires few { length program.now.units.now ≤ 64 }
    requires table { length program.now.code.now ≤ length plan.old }
    requires slots { length program.now.code.now ≤ length visits.old }
    requires unset { (a : ℕ) → slice_index_or plan.old a None ≡ None }
    ensures { MatchResult result (λ _. Least (seen program.now) (plan_of (places_of plan.new))) (λ f. Due (seen program.now) f.cause f.address × Turn (seen program.now) f.cause) }
{
    let mut list = SlotList::new(visits, program.code.len());
    let mut work = Work::new(*program, plan, &mut list);
    work.mark().map_err(|a| Finding {
        cause: CheckCause::NoDivision,
        address: i64::try_from(a).unwrap(),
    })?;
    work.units_open().map_err(|e| Finding {
        cause: CheckCause::BadEntry,
        address: i64::from(e),
    })?;
    work.begin()?;
    work.drain()
}

// Makes every number 0.
// Stays: a function of its own beside `fill`, since the check's proof cites its clause.
fn zero(visits: &mut [u32])
    ensures { visits.new ≡ replicate (length visits.old) 0 }
{
    visits.fill(0);
}

fn refuse(program: Assembled, cause: CheckCause, place: Place) -> Refused<Assembled>
    ensures { (result.program ≡ program) × (result.fault ≡ Check cause place) }
{
    Refused {
        program,
        fault: Fault::Check(cause, place),
    }
}

// Passes a program for which a lawful plan exists. The plan table then holds the least one; the visit list is for
// the work, and is left zero.
pub fn check(
    program: Assembled,
    memory: &[i32],
    units: &[Unit],
    plan: &mut [Option<Planned>],
    visits: &mut [u32],
) -> Result<Passed, Refused<Assembled>>
    ensures { Answered program memory.now units.now plan.old plan.new visits.old visits.new result }
{
    let counts = program.counts();
    let code = counts.code;
    let count = counts.units;
    if plan.len() < code || visits.len() < code || units.len() < count {
        return Err(refuse(program, CheckCause::TableSize, Place::Nowhere));
    }
    if memory.len() != counts.cells {
        return Err(refuse(program, CheckCause::MemoryLength, Place::Nowhere));
    }
    let coded = Coded {
        code: &memory[0..code],
        units: &units[0..count],
    };
    plan.fill(None);
    let answer = explore(&coded, plan, visits);
    zero(visits);
    match answer {
        Ok(()) => {
            unmark(plan);
            Ok(Passed { program })
        }
        Err(finding) => {
            plan.fill(None);
            Err(refuse(program, finding.cause, Place::Address(finding.address)))
        }
    }
}
