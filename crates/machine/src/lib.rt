#![tactic(auto)]

// The CEIVM: one step, a run with an allowance over any port, and the start of a program on the bench.
mod fetch;
mod outcome;
mod perform;
mod print;
mod running;
mod starting;
mod state;
mod step;
mod turns;

pub use instructions::{Layout, Registers};
pub use outcome::{Outcome, Report};
pub use running::run;
pub use starting::bench_start;
pub use state::{Machine, Status};
