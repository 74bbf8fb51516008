use program::{AssemblyCause, Section};

// How far the lines so far have come: the section at hand, whether a line of this text has come that is neither
// blank nor .UNIT, and how many cells each section has.
// Stays: with a bound in the type, all that leads to `grow` keeps a clause, since 1,000 cells more must lie within it.
#[derive(Clone, Copy)]
pub struct Tally {
    pub section: Section,
    pub begun: bool,
    pub code: usize,
    pub data: usize,
    pub heap: usize,
}

// The first faulty line of a text, and its cause.
#[derive(Clone, Copy)]
pub struct LineCause {
    pub line: u32,
    pub cause: AssemblyCause,
}
