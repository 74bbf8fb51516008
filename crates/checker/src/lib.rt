#![tactic(auto)]

// The check: accepts a program exactly when a lawful plan for it exists, and leaves the least one in the plan table.
// The start: a passed program becomes a live machine.
mod checking;
mod division;
mod finding;
mod openings;
mod passed;
mod passing;
mod starting;
mod walking;
mod work;

pub use checking::check;
pub use passed::Passed;
pub use starting::start;
