ghost use Rattle.std.specs.Prelude.{◌≤◌};

use instructions::{Layout, Registers};
use program::Fault;

// May a machine go on?
#[derive(Clone, Copy, PartialEq, Eq)]
pub enum Status {
    Live,
    Halted,
    Faulted(Fault),
}

// A started program: plain numbers over a memory of as many cells as it names.
#[derive(Drop)]
pub struct Machine {
    pub(crate) layout: Layout,
    pub(crate) cells: usize,
    pub(crate) registers: Registers,
    pub(crate) status: Status,
    ghost ordered: { layout.code ≤ layout.floor },
    ghost floor: { layout.floor ≤ registers.limit },
    ghost few: { cells ≤ 65536 },
    ghost high: { registers.sp ≤ cells },
    ghost low: { registers.limit ≤ registers.sp },
}
