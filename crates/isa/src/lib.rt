#![tactic(auto)]

// The instruction set of the CEIVM: opcodes, mnemonics, arguments, and the instruction at an address.
mod instruction;
mod opcode;
mod table;

pub use instruction::{Instruction, instruction_at};
pub use opcode::{NoOpcode, Opcode, Operand};
pub use table::{code_of, decode, length_of, opcode_named, operand_of};
