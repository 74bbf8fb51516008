#![tactic(auto)]

// Trials of the check: what it answers, what it leaves in the tables, and what a passed program then does, one line a
// trial.
mod answers;
mod handing;
mod table;

use crate::answers::check_answer;
use crate::handing::handing_answer;
use crate::table::CHECKS;

fn main(rt: HostRuntime) -> anyhow::Result<()> {
    for trial in &CHECKS {
        let name = trial.name;
        let answer = check_answer(rt.alloc(), trial)?;
        println!(rt; "{name}:{answer}")?;
    }
    let answer = handing_answer(rt.alloc())?;
    println!(rt; "net, handed over again and again:{answer}")?;
    Ok(())
}
