use crate::answers::{STALE, STALE_VISIT, write_check, write_start};
use assembler::assemble;
use bench::NET;
use checker::Passed;
use program::{Assembled, Label, Unit};
use std::alloc::Global;

// Checks a program of 24 code cells and one unit with a table, a list or unit slots too short, and with memory of
// another length. It is given back each time.
fn write_unfit(
    out: &mut String,
    program: Assembled,
    memory: &[i32],
    units: &[Unit],
) -> anyhow::Result<Option<Assembled>> {
    let mut short = [STALE; 23];
    let mut plan = [STALE; 25];
    let mut visits = [STALE_VISIT; 25];
    out.push_str("\n  23 places:")?;
    let Err(program) = write_check(out, program, memory, units, &mut short, &mut visits)? else {
        return Ok(None);
    };
    let mut few = [STALE_VISIT; 23];
    out.push_str("\n  23 visits:")?;
    let Err(program) = write_check(out, program, memory, units, &mut plan, &mut few)? else {
        return Ok(None);
    };
    out.push_str("\n  no units:")?;
    let Err(program) = write_check(out, program, memory, &[], &mut plan, &mut visits)? else {
        return Ok(None);
    };
    out.push_str("\n  31 cells:")?;
    let answer = write_check(out, program, &[0; 31], units, &mut plan, &mut visits)?;
    Ok(answer.err())
}

// Checks a program that has no lawful plan, and once more after its cell is mended, with tables that just suffice.
fn write_mended(
    out: &mut String,
    program: Assembled,
    memory: &mut [i32; 32],
    units: &[Unit],
) -> anyhow::Result<Option<Passed>> {
    let mut plan = [STALE; 24];
    let mut visits = [STALE_VISIT; 24];
    memory[15] = 6;
    out.push_str("\n  LOAD 6:")?;
    let Err(program) = write_check(out, program, memory, units, &mut plan, &mut visits)? else {
        return Ok(None);
    };
    memory[15] = 4;
    out.push_str("\n  LOAD 4:")?;
    let answer = write_check(out, program, memory, units, &mut plan, &mut visits)?;
    Ok(answer.ok())
}

// Starts a passed program over memory of another length, which gives it back, and then over its own.
fn write_started(out: &mut String, program: Passed, memory: &mut [i32; 32]) -> anyhow::Result<()> {
    if let Some(program) = write_start(out, program, &mut [0; 31])? {
        let _ = write_start(out, program, memory)?;
    }
    Ok(())
}

// A program that is refused, given back, mended, passed and started.
pub(crate) fn handing_answer(heap: Global) -> anyhow::Result<String> {
    let mut out = String::new(heap);
    let mut memory = [0; 32];
    let mut labels = [Label::empty(); 1];
    let mut units = [Unit::empty(); 1];
    let Ok(program) = assemble(NET, b"", &mut memory, &mut labels, &mut units) else {
        return Ok(out);
    };
    if let Some(program) = write_unfit(&mut out, program, &memory, &units)? {
        if let Some(passed) = write_mended(&mut out, program, &mut memory, &units)? {
            write_started(&mut out, passed, &mut memory)?;
        }
    }
    Ok(out)
}
