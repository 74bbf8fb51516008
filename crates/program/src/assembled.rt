ghost use Rattle.std.specs.Prelude.{◌+◌, ◌≤◌};

use crate::counts::Counts;

// A program that its texts gave, not checked yet: plain numbers, moved on and never copied. Its cells stand in
// the memory that it was assembled into, and its units in the slots.
#[derive(Drop)]
pub struct Assembled {
    pub(crate) counts: Counts,
    ghost least: { 16 ≤ counts.cells },
    ghost most: { counts.cells ≤ 65536 },
    ghost fits: { counts.code + counts.«data» + counts.heap ≤ counts.cells },
    ghost labelled: { counts.labels ≤ 512 },
    ghost united: { counts.units ≤ 64 },
}
