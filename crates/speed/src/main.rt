#![tactic(auto)]

// Runs a site text for a number of steps, for measurements: `speed run FILE STEPS` prints the steps, pc and how many
// bytes were shown, and `speed cells FILE` prints the counts and cells that another interpreter can run.
use assembler::assemble;
use bench::Refusal;
use machine::{Machine, Outcome, bench_start, run};
use port::{BoardPort, Port};
use program::{Counts, Label, Unit};
use std::{env, fs};

const CELLS: usize = 4096;

// Runs on while the port is emptied, up to so many turns; answers the steps and the bytes that were shown.
fn run_on(
    machine: &mut Machine,
    memory: &mut [i32],
    port: &mut BoardPort,
    steps: u32,
) -> (u32, usize) {
    let mut left = steps;
    let mut bytes: usize = 0;
    for _turn in 0..steps {
        let Ok(report) = run(machine, memory, port, left) else {
            break;
        };
        left = left.saturating_sub(report.steps);
        bytes = bytes.saturating_add(port.shown());
        match report.outcome {
            Outcome::Space => port.clear(),
            _ => break,
        }
    }
    (steps.saturating_sub(left), bytes)
}

fn print_cells(rt: &HostRuntime, counts: Counts, memory: &[i32]) -> anyhow::Result<()> {
    let Counts {
        cells,
        code,
        data,
        heap,
        ..
    } = counts;
    println!(rt; "{cells} {code} {data} {heap}")?;
    for cell in memory {
        println!(rt; "{cell}")?;
    }
    Ok(())
}

fn measure(rt: &HostRuntime, text: &[u8], steps: Option<u32>) -> anyhow::Result<()> {
    let heap = rt.alloc();
    let mut memory = vec![in heap; 0; CELLS]?;
    let mut labels = vec![in heap; Label::empty(); 512]?;
    let mut units = vec![in heap; Unit::empty(); 64]?;
    let program = match assemble(text, b"", &mut memory, &mut labels, &mut units) {
        Ok(program) => program,
        Err(fault) => {
            println!(rt; "{}", Refusal(fault))?;
            return Ok(());
        }
    };
    let Some(steps) = steps else {
        return print_cells(rt, program.counts(), &memory);
    };
    let Ok(mut machine) = bench_start(program, &memory) else {
        return Ok(());
    };
    let mut port = BoardPort::new();
    let (done, bytes) = run_on(&mut machine, &mut memory, &mut port, steps);
    let pc = machine.registers().pc;
    println!(rt; "{done} {pc} {bytes}")?;
    Ok(())
}

fn main(rt: HostRuntime) -> anyhow::Result<()> {
    let mut args = env::args(&rt)?;
    let _program = args.next();
    let (Some(_what), Some(path)) = (args.next(), args.next()) else {
        println!(rt; "speed run FILE STEPS, or speed cells FILE")?;
        return Ok(());
    };
    let text = fs::read(&rt, path)?;
    let steps = args.next().map(|s| s.parse::<u32>()).transpose()?;
    measure(&rt, &text, steps)
}
