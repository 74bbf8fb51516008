use bench::report;
use std::fs;

// The example programs, each with its input NAME.casm and what the bench is to print of it, NAME.out.
pub(crate) const EXAMPLES: [&str; 4] = ["net", "tide", "motor", "report"];

pub(crate) fn example_answer(rt: &HostRuntime, name: &str) -> anyhow::Result<String> {
    let heap = rt.alloc();
    let input = fs::read(rt, format!(in heap; "{name}.casm")?)?;
    let expected = fs::read(rt, format!(in heap; "{name}.out")?)?;
    let answer = report(heap, &input)?;
    let same = answer == expected;
    let not = if same { "" } else { "not " };
    Ok(format!(in heap; "{not}as in {name}.out")?)
}
