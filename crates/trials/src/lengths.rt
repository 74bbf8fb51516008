use crate::runs::run_text;
use assembler::assemble;
use bench::{NET, Refusal};
use machine::{Machine, bench_start};
use port::{BoardPort, Port};
use program::{Assembled, Label, Refused, Unit};
use std::alloc::Global;

// Writes the length of a memory and what a run over it answers.
fn write_run_over<P: Port>(
    out: &mut String,
    machine: &mut Machine,
    memory: &mut [i32],
    port: &mut P,
) -> anyhow::Result<()> {
    let cells = memory.len();
    let text = run_text(*out.allocator(), machine, memory, port, 100)?;
    write!(out, " run over {cells}: {text}.")?;
    Ok(())
}

// Starts a program over a memory of another length, which gives it back, and then over its own.
fn write_starts(
    out: &mut String,
    program: Assembled,
    memory: &mut [i32],
    other: &mut [i32],
) -> anyhow::Result<()> {
    let mut port = BoardPort::new();
    match bench_start(program, other) {
        Ok(_) => out.push_str(" started over another memory.")?,
        Err(Refused { program, fault }) => {
            write!(out, " start: {}.", Refusal(fault))?;
            if let Ok(mut machine) = bench_start(program, memory) {
                write_run_over(out, &mut machine, other, &mut port)?;
                write_run_over(out, &mut machine, memory, &mut port)?;
                write_run_over(out, &mut machine, other, &mut port)?;
            }
        }
    }
    Ok(())
}

// A program of 32 cells, started and run over memories of 31 and of 32.
pub(crate) fn lengths_answer(heap: Global) -> anyhow::Result<String> {
    let mut out = String::new(heap);
    let mut memory = [0; 32];
    let mut labels = [Label::empty(); 1];
    let mut units = [Unit::empty(); 1];
    match assemble(NET, b"", &mut memory, &mut labels, &mut units) {
        Ok(program) => write_starts(&mut out, program, &mut memory, &mut [0; 31])?,
        Err(fault) => write!(out, "{}", Refusal(fault))?,
    }
    Ok(out)
}
