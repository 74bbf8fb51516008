#![tactic(auto)]

// The assembler: two texts of CEIASM become the cells of a program, its labels and its units.
mod assembling;
mod building;
mod finding;
mod fit;
mod layout;
mod lists;
mod named;
mod source;
mod survey;
mod surveying;
mod tally;
mod texts;
mod writing;

pub use assembling::assemble;
pub use source::source_line;
