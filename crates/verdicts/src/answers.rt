use crate::table::{Change, CheckTrial};
use assembler::assemble;
use bench::{Ending, Refusal};
use checker::{Passed, check, start};
use machine::{Machine, run};
use plan::Planned;
use port::BoardPort;
use program::{Assembled, Label, Unit};
use std::alloc::Global;

// What stands in the tables before a check.
pub(crate) const STALE: Option<Planned> = Some(Planned { body: 9, depth: 9 });

pub(crate) const STALE_VISIT: u32 = 7;

fn apply(changes: &[Change], memory: &mut [i32], units: &mut [Unit]) {
    for change in changes {
        match *change {
            Change::Cell(address, value) => {
                if let Some(cell) = memory.get_mut(address) {
                    *cell = value;
                }
            }
            Change::Entry(place, entry) => {
                if let Some(unit) = units.get_mut(place) {
                    unit.entry = entry;
                }
            }
        }
    }
}

// Writes the places that are set, each with its body and depth, and how many are as before.
fn write_plan(out: &mut String, plan: &[Option<Planned>]) -> anyhow::Result<()> {
    out.push_str("; plan")?;
    for (address, place) in plan.iter().enumerate() {
        if let Some(Planned { body, depth }) = *place {
            if *place != STALE {
                write!(out, " {address}:{body}/{depth}")?;
            }
        }
    }
    let stale = plan.iter().filter(|place| **place == STALE).count();
    write!(out, ", {stale} as before")?;
    Ok(())
}

// Writes how many numbers of the visit list are 0, and how many are as before.
fn write_visits(out: &mut String, visits: &[u32]) -> anyhow::Result<()> {
    let zeros = visits.iter().filter(|visit| **visit == 0).count();
    let stale = visits.iter().filter(|visit| **visit == STALE_VISIT).count();
    write!(out, "; visits {zeros} zero, {stale} as before")?;
    Ok(())
}

// Checks a program, and writes the answer and what the tables hold after it.
// Stays: memory, units and both tables are handed on apart, since each is also handed in too short, one at a time.
pub(crate) fn write_check(
    out: &mut String,
    program: Assembled,
    memory: &[i32],
    units: &[Unit],
    plan: &mut [Option<Planned>],
    visits: &mut [u32],
) -> anyhow::Result<Result<Passed, Assembled>> {
    let answer = match check(program, memory, units, plan, visits) {
        Ok(passed) => {
            out.push_str(" passes")?;
            Ok(passed)
        }
        Err(back) => {
            write!(out, " {}", Refusal(back.fault))?;
            Err(back.program)
        }
    };
    write_plan(out, plan)?;
    write_visits(out, visits)?;
    Ok(answer)
}

// Runs a machine for 100 steps at most, and writes the outcome.
// Stays: shared with the trials it would be public in bench, and had to promise all that a run promises.
fn write_run(out: &mut String, machine: &mut Machine, memory: &mut [i32]) -> anyhow::Result<()> {
    match run(machine, memory, &mut BoardPort::new(), 100) {
        Ok(report) => {
            let pc = machine.registers().pc;
            write!(out, "; {}", Ending { report, pc })?;
        }
        Err(fault) => write!(out, "; {}", Refusal(fault))?,
    }
    Ok(())
}

// Starts a passed program and runs it. A start that is refused gives the program back.
pub(crate) fn write_start(
    out: &mut String,
    program: Passed,
    memory: &mut [i32],
) -> anyhow::Result<Option<Passed>> {
    match start(program, memory) {
        Ok(mut machine) => {
            write_run(out, &mut machine, memory)?;
            Ok(None)
        }
        Err(back) => {
            write!(out, "; start {}", Refusal(back.fault))?;
            Ok(Some(back.program))
        }
    }
}

// What the check answers, with tables of 66 places, and what a run gives if the program passes.
pub(crate) fn check_answer(heap: Global, trial: &CheckTrial) -> anyhow::Result<String> {
    let mut out = String::new(heap);
    let mut memory = [0; 64];
    let mut labels = [Label::empty(); 4];
    let mut units = [Unit::empty(); 3];
    match assemble(trial.site, b"", &mut memory, &mut labels, &mut units) {
        Ok(program) => {
            apply(trial.changes, &mut memory, &mut units);
            let mut plan = [STALE; 66];
            let mut visits = [STALE_VISIT; 66];
            let answer = write_check(&mut out, program, &memory, &units, &mut plan, &mut visits)?;
            if let Ok(passed) = answer {
                let _ = write_start(&mut out, passed, &mut memory)?;
            }
        }
        Err(fault) => write!(out, "{}", Refusal(fault))?,
    }
    Ok(out)
}
