#![tactic(auto)]

// The laws of a controller: whatever program has a lawful plan, whatever the port, and whatever the calls, no run
// answers a fault of the stack or of the code, calls keep the caller's cells and returns restore, and equal
// controllers do equal things. The definitions say what a life is and what the laws are, the proofs show them of every
// program with a lawful plan, and the contract of the check cites them. The code is the three calls of a life, over
// any port.
mod calls;

pub use calls::{clear_shown, offer_reading, run_controller};
