// Which rule an instruction has at a place.
// Stays: a rule as a closure in each row of the table would hide which rules there are, and specs go by the kinds.
#[derive(Clone, Copy)]
pub enum Kind {
    // it goes on to the next instruction
    Moves,
    // no rule fits it
    Ruleless,
    // PUSH: with a CALL after it, a call
    Pushes,
    // STOREFP: with a RET after it, the end of a unit
    Ends,
    // HALT
    Halts,
    // JUMP
    Jumps,
    // BF and BT
    Branches,
    // LOAD and STORE: they reach into the frame
    Frames,
    // RMEM and FMEM: their counts are not negative
    Counts,
}
