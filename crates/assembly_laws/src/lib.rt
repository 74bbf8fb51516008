#![tactic(auto)]

// Laws of assembly: what holds of every program that two texts give.
mod lawful;
mod twice;

pub use lawful::assemble_lawfully;
pub use twice::assemble_twice;
