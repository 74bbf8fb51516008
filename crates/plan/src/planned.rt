// What a plan gives an address: the body that runs there (0 is the main program, i is unit i), and its depth.
// Stays: 0 is no lack of a body: the main program is a body like the units, and docs/CHECK.md numbers it so.
#[derive(Clone, Copy, PartialEq, Eq)]
pub struct Planned {
    pub body: u8,
    pub depth: u16,
}
