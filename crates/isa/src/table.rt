// Opcodes by number and by mnemonic, and what each takes.
ghost use Rattle.isa.specs.Table.{operand_cells, decoded, number, operand, size, named, nth};
ghost use Rattle.program.specs.Names.{same, smalls};
ghost use Rattle.std.specs.Prelude.{◌≡◌, ℤ, pos, Some, None, MatchResult, map};

use crate::opcode::{NoOpcode, Opcode, Operand};
use program::is_word;

// Each mnemonic with its opcode, by number from 1 on.
static TABLE: [(&[u8], Opcode); 49] = [
    (b"push", Opcode::Push),
    (b"add", Opcode::Add),
    (b"sub", Opcode::Sub),
    (b"mul", Opcode::Mul),
    (b"div", Opcode::Div),
    (b"mod", Opcode::Mod),
    (b"neg", Opcode::Neg),
    (b"and", Opcode::And),
    (b"or", Opcode::Or),
    (b"not", Opcode::Not),
    (b"eq", Opcode::Eq),
    (b"ne", Opcode::Ne),
    (b"lt", Opcode::Lt),
    (b"gt", Opcode::Gt),
    (b"le", Opcode::Le),
    (b"ge", Opcode::Ge),
    (b"dup", Opcode::Dup),
    (b"pop", Opcode::Pop),
    (b"swap", Opcode::Swap),
    (b"jump", Opcode::Jump),
    (b"bf", Opcode::Bf),
    (b"bt", Opcode::Bt),
    (b"nop", Opcode::Nop),
    (b"read", Opcode::Read),
    (b"bprint", Opcode::Bprint),
    (b"cprint", Opcode::Cprint),
    (b"iprint", Opcode::Iprint),
    (b"sprint", Opcode::Sprint),
    (b"prnln", Opcode::Prnln),
    (b"load", Opcode::Load),
    (b"store", Opcode::Store),
    (b"loadref", Opcode::Loadref),
    (b"storeref", Opcode::Storeref),
    (b"deref", Opcode::Deref),
    (b"call", Opcode::Call),
    (b"loadfp", Opcode::Loadfp),
    (b"loadsp", Opcode::Loadsp),
    (b"storefp", Opcode::Storefp),
    (b"rmem", Opcode::Rmem),
    (b"fmem", Opcode::Fmem),
    (b"ret", Opcode::Ret),
    (b"halt", Opcode::Halt),
    (b"loadpc", Opcode::Loadpc),
    (b"storepc", Opcode::Storepc),
    (b"storesp", Opcode::Storesp),
    (b"loadhp", Opcode::Loadhp),
    (b"storehp", Opcode::Storehp),
    (b"loadhl", Opcode::Loadhl),
    (b"storehl", Opcode::Storehl),
];

// The opcode of the row at a place, counted from 0.
fn opcode_at(rows: &[(&[u8], Opcode)], place: usize) -> Option<Opcode>
    ensures { result ≡ nth (map (λ row. row.1) rows.now) place }
{
    rows.get(place).map(|row| row.1)
}

impl From<Opcode> for i32 {
    ghost from_gives = { λ op cell. cell ≡ pos (number op) };

    fn from(op: Opcode) -> i32 {
        op as i32
    }
}

impl TryFrom<i32> for Opcode {
    type Error = NoOpcode;

    ghost try_from_gives = { λ cell r. MatchResult r (λ op. decoded cell ≡ Some op) (λ _. decoded cell ≡ None) };

    fn try_from(cell: i32) -> Result<Opcode, NoOpcode> {
        if cell < 1 {
            return Err(NoOpcode);
        }
        // Stays: a cast; after it one test is left, where try_from and checked_sub make two in each step of a run.
        opcode_at(&TABLE, cell as usize - 1).ok_or(NoOpcode)
    }
}

// The opcode that a cell holds.
// Stays: `decode` and `code_of` are public, so they stand beside the conversions, which they only call.
pub fn decode(cell: i32) -> Option<Opcode>
    ensures { result ≡ decoded cell }
{
    Opcode::try_from(cell).ok()
}

// The number of an opcode, from which it is decoded again.
pub fn code_of(op: Opcode) -> i32
    ensures is { result ≡ pos (number op) }
    ensures back { decoded result ≡ Some op }
{
    i32::from(op)
}

// What an instruction takes after its mnemonic.
pub fn operand_of(op: Opcode) -> Operand
    ensures { result ≡ operand op }
{
    match op {
        Opcode::Push => Operand::Value,
        Opcode::Jump | Opcode::Bf | Opcode::Bt => Operand::Target,
        Opcode::Rmem | Opcode::Fmem | Opcode::Ret => Operand::Count,
        Opcode::Load | Opcode::Store | Opcode::Loadref | Opcode::Storeref => Operand::Number,
        _ => Operand::Absent,
    }
}

// How many cells an argument takes.
pub(crate) fn argument_cells(operand: Operand) -> usize
    ensures { result ≡ operand_cells operand }
{
    usize::from(operand != Operand::Absent)
}

// How many cells an instruction takes.
pub fn length_of(op: Opcode) -> usize
    ensures { result ≡ size op }
{
    1 + argument_cells(operand_of(op))
}

// The opcode of a mnemonic, whose letters may be capitals.
pub fn opcode_named(word: &[u8]) -> Option<Opcode>
    ensures { result ≡ named (smalls word.now) }
{
    TABLE
        .iter()
        .find(|row| is_word(word, row.0))
        .map(|row| row.1)
}
