#![tactic(auto)]

// The 49 instructions of the CEIVM, but for what they ask of the port.
mod checks;
mod control;
mod dispatch;
mod effect;
mod layout;
mod place;
mod processor;
mod registers;
mod shows;
mod special;
mod stack;
mod variables;

pub use dispatch::{execute, put};
pub use effect::{Effect, Text};
pub use layout::Layout;
pub use registers::Registers;
