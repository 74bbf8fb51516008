ghost use Rattle.std.specs.Prelude.{◌≡◌, ℕ, ◌+◌, ◌≤◌, length, IfSome};
ghost use Rattle.isa.specs.Code.{argument, instruction};
ghost use Rattle.isa.specs.Table.{operand_cells, operand};

use crate::opcode::{Opcode, Operand};
use crate::table::{argument_cells, decode, operand_of};

// An instruction of a program: its opcode, and its argument cell, or 0 where it has none.
// Stays: 0 for no argument, since `argument` in specs/ gives it and `exec` takes a number for each opcode.
#[derive(Clone, Copy)]
pub struct Instruction {
    pub op: Opcode,
    pub argument: i32,
}

// The argument of an instruction at an address, or 0 where it has none.
fn argument_at(code: &[i32], address: usize, operand: Operand) -> i32
    requires { address + 1 + operand_cells operand ≤ length code.now }
    ensures { result ≡ argument operand code.now address }
{
    match operand {
        Operand::Absent => 0,
        _ => code[address + 1],
    }
}

// The instruction that stands at an address, whole within the code's cells.
pub fn instruction_at(code: &[i32], address: usize) -> Option<Instruction>
    ensures is { result ≡ instruction code.now address }
    ensures within { IfSome result (λ i. address + 1 + operand_cells (operand i.op) ≤ length code.now) }
{
    if address >= code.len() {
        return None;
    }
    let op = decode(code[address])?;
    let operand = operand_of(op);
    if address + 1 + argument_cells(operand) > code.len() {
        return None;
    }
    Some(Instruction {
        op,
        argument: argument_at(code, address, operand),
    })
}
