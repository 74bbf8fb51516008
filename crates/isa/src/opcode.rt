// The 49 instructions, each with the number of its opcode.
#[derive(Clone, Copy, PartialEq, Eq)]
pub enum Opcode {
    Push = 1,
    Add = 2,
    Sub = 3,
    Mul = 4,
    Div = 5,
    Mod = 6,
    Neg = 7,
    And = 8,
    Or = 9,
    Not = 10,
    Eq = 11,
    Ne = 12,
    Lt = 13,
    Gt = 14,
    Le = 15,
    Ge = 16,
    Dup = 17,
    Pop = 18,
    Swap = 19,
    Jump = 20,
    Bf = 21,
    Bt = 22,
    Nop = 23,
    Read = 24,
    Bprint = 25,
    Cprint = 26,
    Iprint = 27,
    Sprint = 28,
    Prnln = 29,
    Load = 30,
    Store = 31,
    Loadref = 32,
    Storeref = 33,
    Deref = 34,
    Call = 35,
    Loadfp = 36,
    Loadsp = 37,
    Storefp = 38,
    Rmem = 39,
    Fmem = 40,
    Ret = 41,
    Halt = 42,
    Loadpc = 43,
    Storepc = 44,
    Storesp = 45,
    Loadhp = 46,
    Storehp = 47,
    Loadhl = 48,
    Storehl = 49,
}

// A cell that holds no opcode.
#[derive(Clone, Copy, PartialEq, Eq)]
pub struct NoOpcode;

// What an instruction takes after its mnemonic: nothing, a number or a label, a label, a count from 0 to 1,000,
// or a number. All but the first stand in one argument cell.
// Stays: the table of instructions in specs/ names these five, of which nothing is one, for each opcode.
#[derive(Clone, Copy, PartialEq, Eq)]
pub enum Operand {
    Absent,
    Value,
    Target,
    Count,
    Number,
}
