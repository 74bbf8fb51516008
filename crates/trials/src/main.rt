#![tactic(auto)]

// Trials: texts, sizes, runs, lengths, ports, reports, sums and the examples, and what each gave, one line a trial.
mod assemblies;
mod examples;
mod lengths;
mod ports;
mod quoting;
mod reports;
mod runs;
mod sizes;
mod sums;
#[cfg(test)]
mod tests;

use crate::assemblies::{TEXTS, text_answer};
use crate::examples::{EXAMPLES, example_answer};
use crate::lengths::lengths_answer;
use crate::ports::{board_answer, service_answer};
use crate::reports::{INPUTS, report_answer};
use crate::runs::{TRIALS, trial_answer};
use crate::sizes::{SIZES, size_answer};
use crate::sums::{SUMS, sum_answer};
use std::alloc::Global;

// Prints what each item answers, a line each.
fn print_each<T, F: Fn(Global, &T) -> anyhow::Result<String>>(
    rt: &HostRuntime,
    items: &[T],
    answer: F,
) -> anyhow::Result<()>
    requires { F.IsAlwaysCallable answer }
{
    for item in items {
        let line = answer(rt.alloc(), item)?;
        println!(rt; "{line}")?;
    }
    Ok(())
}

fn try_ports(rt: &HostRuntime) -> anyhow::Result<()> {
    let answer = lengths_answer(rt.alloc())?;
    println!(rt; "memory of another length:{answer}")?;
    let answer = board_answer(rt.alloc())?;
    println!(rt; "board port:{answer}")?;
    for (places, bytes) in [(36, 5), (35, 1), (11, 0)] {
        let answer = service_answer(rt.alloc(), places, bytes)?;
        println!(rt; "service port over {places} and {bytes} bytes:{answer}")?;
    }
    Ok(())
}

fn try_examples(rt: &HostRuntime) -> anyhow::Result<()> {
    for name in &EXAMPLES {
        let answer = example_answer(rt, name)?;
        println!(rt; "example {name}: {answer}")?;
    }
    Ok(())
}

fn main(rt: HostRuntime) -> anyhow::Result<()> {
    print_each(&rt, &TEXTS, text_answer)?;
    print_each(&rt, &SIZES, size_answer)?;
    print_each(&rt, &TRIALS, trial_answer)?;
    try_ports(&rt)?;
    print_each(&rt, &INPUTS, report_answer)?;
    print_each(&rt, &SUMS, sum_answer)?;
    try_examples(&rt)
}
