use crate::kind::Kind;

// How many top cells an instruction uses, how many cells come in their place, and which rule it has.
#[derive(Clone, Copy)]
pub struct Row {
    pub uses: u32,
    pub gives: u32,
    pub kind: Kind,
}
