ghost use Rattle.std.specs.Prelude.{◌≤◌, length};

use crate::registers::Registers;

// Registers, and the memory that they lie in: hl < sp, and sp is at most the number of cells.
#[derive(Drop)]
pub(crate) struct Processor<'a> {
    pub(crate) registers: Registers,
    pub(crate) memory: &'a mut [i32],
    ghost few: { length memory.now ≤ 65536 },
    ghost high: { registers.sp ≤ length memory.now },
    ghost low: { registers.limit ≤ registers.sp },
}
