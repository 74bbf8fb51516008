use bench::NET;

// A number put from outside into a cell, or into the entry of a unit.
#[derive(Clone, Copy)]
pub(crate) enum Change {
    Cell(usize, i32),
    Entry(usize, u32),
}

// A program, assembled into 64 cells, and what is changed before it is checked.
#[derive(Clone, Copy)]
pub(crate) struct CheckTrial {
    pub name: &'static str,
    pub site: &'static [u8],
    pub changes: &'static [Change],
}

pub(crate) const CHECKS: [CheckTrial; 76] = [
    CheckTrial {
        name: "net",
        site: NET,
        changes: &[],
    },
    CheckTrial {
        name: "net with LOAD 5",
        site: NET,
        changes: &[Change::Cell(15, 5)],
    },
    CheckTrial {
        name: "net with LOAD 6",
        site: NET,
        changes: &[Change::Cell(15, 6)],
    },
    CheckTrial {
        name: "net with LOAD 2",
        site: NET,
        changes: &[Change::Cell(15, 2)],
    },
    CheckTrial {
        name: "net with RET 1",
        site: NET,
        changes: &[Change::Cell(23, 1)],
    },
    CheckTrial {
        name: "no text",
        site: b"",
        changes: &[],
    },
    CheckTrial {
        name: "RMEM 1000",
        site: b"RMEM 1000\nHALT",
        changes: &[],
    },
    CheckTrial {
        name: "RMEM 1000 and PUSH",
        site: b"RMEM 1000\nPUSH 1\nHALT",
        changes: &[],
    },
    CheckTrial {
        name: "a loop of pushes",
        site: b"a: PUSH 1\nJUMP a",
        changes: &[],
    },
    CheckTrial {
        name: "a loop at one depth",
        site: b"a: PUSH 1\nPOP\nJUMP a",
        changes: &[],
    },
    CheckTrial {
        name: "BF to its next instruction",
        site: b"PUSH 1\nBF a\na: HALT",
        changes: &[],
    },
    CheckTrial {
        name: "a unit that nobody calls",
        site: b".UNIT f, 0, 0\nHALT\nf: LOADFP\nLOADSP\nSTOREFP\nPUSH 1\nPOP\nSTOREFP\nRET 0",
        changes: &[],
    },
    CheckTrial {
        name: "a unit that calls itself",
        site: b".UNIT f, 1, 0\nPUSH 3\nPUSH f\nCALL\nHALT\nf: LOADFP\nLOADSP\nSTOREFP\nLOAD 3\nBF e\nLOAD 3\nPUSH 1\nSUB\nPUSH f\nCALL\ne: STOREFP\nRET 1",
        changes: &[],
    },
    CheckTrial {
        name: "HALT in a unit",
        site: b".UNIT f, 0, 0\nPUSH f\nCALL\nHALT\nf: LOADFP\nLOADSP\nSTOREFP\nPUSH 1\nHALT",
        changes: &[],
    },
    CheckTrial {
        name: "rules that move the depth",
        site: b"READ\nDUP\nSWAP\nADD\nLOADHP\nLOADHL\nSTOREHL\nNEG\nOR\nPRNLN\nBPRINT\nHALT",
        changes: &[],
    },
    CheckTrial {
        name: "13 at opcode 0",
        site: b"NOP\nNOP",
        changes: &[Change::Cell(0, 0)],
    },
    CheckTrial {
        name: "13 at opcode 50",
        site: b"NOP\nNOP\nNOP",
        changes: &[Change::Cell(1, 50)],
    },
    CheckTrial {
        name: "13 at a negative cell",
        site: b"PUSH 1\nNOP\nHALT",
        changes: &[Change::Cell(2, -1)],
    },
    CheckTrial {
        name: "13 at half an instruction",
        site: b"NOP\nNOP\nNOP",
        changes: &[Change::Cell(2, 1)],
    },
    CheckTrial {
        name: "13 before 14",
        site: b".UNIT f, 0, 0\nNOP\nf: NOP",
        changes: &[Change::Cell(1, 99)],
    },
    CheckTrial {
        name: "14 without an opening",
        site: b".UNIT f, 0, 0\nHALT\nf: HALT",
        changes: &[],
    },
    CheckTrial {
        name: "14 with another opening",
        site: b".UNIT f, 0, 0\nHALT\nf: LOADFP\nLOADSP\nSTORESP\nHALT",
        changes: &[],
    },
    CheckTrial {
        name: "14 of an opening that the code cuts",
        site: b".UNIT f, 0, 0\nHALT\nf: LOADFP\nLOADSP",
        changes: &[],
    },
    CheckTrial {
        name: "14 on an argument",
        site: NET,
        changes: &[Change::Entry(0, 1)],
    },
    CheckTrial {
        name: "14 within an opening",
        site: NET,
        changes: &[Change::Entry(0, 12)],
    },
    CheckTrial {
        name: "14 in data",
        site: b".UNIT f, 0, 0\nHALT\n.DATA\nf: DW 36, 37, 38",
        changes: &[],
    },
    CheckTrial {
        name: "14 of an entry past 65,536",
        site: NET,
        changes: &[Change::Entry(0, 4294967295)],
    },
    CheckTrial {
        name: "14 of a shared entry",
        site: b".UNIT f, 0, 0\n.UNIT g, 1, 0\nHALT\nf: LOADFP\nLOADSP\nSTOREFP\nSTOREFP\nRET 0\ng: LOADFP\nLOADSP\nSTOREFP\nSTOREFP\nRET 1",
        changes: &[Change::Entry(1, 1)],
    },
    CheckTrial {
        name: "14 of the first bad unit",
        site: b".UNIT f, 0, 0\n.UNIT g, 0, 0\n.UNIT h, 0, 0\nHALT\nh: HALT\ng: HALT\nf: LOADFP\nLOADSP\nSTOREFP\nSTOREFP\nRET 0",
        changes: &[],
    },
    CheckTrial {
        name: "14 without code",
        site: b".UNIT f, 0, 0\n.DATA\nf: DW 1",
        changes: &[],
    },
    CheckTrial {
        name: "15 past the code",
        site: b"NOP",
        changes: &[],
    },
    CheckTrial {
        name: "15 past a branch",
        site: b"PUSH 1\nBT a\na: PUSH 1\nBF a",
        changes: &[],
    },
    CheckTrial {
        name: "15 of a call at the end",
        site: b".UNIT f, 0, 0\nJUMP m\nf: LOADFP\nLOADSP\nSTOREFP\nSTOREFP\nRET 0\nm: PUSH f\nCALL",
        changes: &[],
    },
    CheckTrial {
        name: "15 of a jump far on, into an argument",
        site: b"JUMP a\nNOP\nNOP\nNOP\nNOP\nNOP\nNOP\nNOP\nNOP\nNOP\nNOP\nNOP\nNOP\nNOP\nNOP\na: PUSH 7\nHALT",
        changes: &[Change::Cell(1, 17)],
    },
    CheckTrial {
        name: "15 of a jump far back, into an argument",
        site: b"PUSH 7\nPOP\nNOP\nNOP\nNOP\nNOP\nNOP\nNOP\nNOP\nNOP\nNOP\nNOP\nNOP\na: JUMP a",
        changes: &[Change::Cell(15, 1)],
    },
    CheckTrial {
        name: "15 of a jump to an opening",
        site: b".UNIT f, 0, 0\nJUMP f\nf: LOADFP\nLOADSP\nSTOREFP\nSTOREFP\nRET 0",
        changes: &[],
    },
    CheckTrial {
        name: "15 of a jump into an opening",
        site: b".UNIT f, 0, 0\nJUMP f\nf: LOADFP\nLOADSP\nSTOREFP\nSTOREFP\nRET 0",
        changes: &[Change::Cell(1, 4)],
    },
    CheckTrial {
        name: "15 of a unit that runs into an opening",
        site: b".UNIT f, 0, 0\n.UNIT g, 0, 0\nHALT\nf: LOADFP\nLOADSP\nSTOREFP\nNOP\ng: LOADFP\nLOADSP\nSTOREFP\nSTOREFP\nRET 0",
        changes: &[],
    },
    CheckTrial {
        name: "15 at a negative address",
        site: b"a: JUMP a",
        changes: &[Change::Cell(1, -5)],
    },
    CheckTrial {
        name: "15 at the smallest number",
        site: b"a: JUMP a",
        changes: &[Change::Cell(1, i32::MIN)],
    },
    CheckTrial {
        name: "15 at the largest number",
        site: b"a: JUMP a",
        changes: &[Change::Cell(1, i32::MAX)],
    },
    CheckTrial {
        name: "15 of a branch to data",
        site: b"PUSH 1\nBT x\nHALT\n.DATA\nx: DW 42",
        changes: &[],
    },
    CheckTrial {
        name: "16 of a call of no unit",
        site: b"PUSH 3\nCALL\nHALT",
        changes: &[],
    },
    CheckTrial {
        name: "16 of a call into a unit",
        site: b".UNIT f, 0, 0\nPUSH f\nCALL\nHALT\nf: LOADFP\nLOADSP\nSTOREFP\nSTOREFP\nRET 0",
        changes: &[Change::Cell(1, 5)],
    },
    CheckTrial {
        name: "16 of CALL with a place",
        site: b"RMEM 1\nCALL\nHALT",
        changes: &[],
    },
    CheckTrial {
        name: "16 of a jump to the CALL of a pair",
        site: b".UNIT f, 0, 0\nPUSH f\na: CALL\nJUMP a\nf: LOADFP\nLOADSP\nSTOREFP\nSTOREFP\nRET 0",
        changes: &[],
    },
    CheckTrial {
        name: "16 of RET with a place",
        site: b"PUSH 1\nRET 0",
        changes: &[],
    },
    CheckTrial {
        name: "16 of the end of a unit in the main program",
        site: b"STOREFP\nRET 0",
        changes: &[],
    },
    CheckTrial {
        name: "16 of an end at depth 1",
        site: b".UNIT f, 0, 0\nHALT\nf: LOADFP\nLOADSP\nSTOREFP\nPUSH 1\nSTOREFP\nRET 0",
        changes: &[],
    },
    CheckTrial {
        name: "16 of STOREFP without RET",
        site: b"PUSH 1\nSTOREFP\nHALT",
        changes: &[],
    },
    CheckTrial {
        name: "16 of LOADFP",
        site: b"LOADFP\nHALT",
        changes: &[],
    },
    CheckTrial {
        name: "16 of LOADSP",
        site: b"LOADSP\nHALT",
        changes: &[],
    },
    CheckTrial {
        name: "16 of LOADPC",
        site: b"LOADPC\nHALT",
        changes: &[],
    },
    CheckTrial {
        name: "16 of STOREPC",
        site: b"PUSH 0\nSTOREPC",
        changes: &[],
    },
    CheckTrial {
        name: "16 of STORESP",
        site: b"PUSH 9\nSTORESP\nHALT",
        changes: &[],
    },
    CheckTrial {
        name: "16 of STOREHP",
        site: b"PUSH 9\nSTOREHP\nHALT",
        changes: &[],
    },
    CheckTrial {
        name: "16 of RMEM -1",
        site: b"RMEM 0\nHALT",
        changes: &[Change::Cell(1, -1)],
    },
    CheckTrial {
        name: "16 of FMEM -1",
        site: b"FMEM 0\nHALT",
        changes: &[Change::Cell(1, -1)],
    },
    CheckTrial {
        name: "17 of ADD",
        site: b"PUSH 1\nADD\nHALT",
        changes: &[],
    },
    CheckTrial {
        name: "17 of BF",
        site: b"a: BF a",
        changes: &[],
    },
    CheckTrial {
        name: "17 of FMEM",
        site: b"RMEM 3\nFMEM 4\nHALT",
        changes: &[],
    },
    CheckTrial {
        name: "17 of STOREREF",
        site: b"PUSH 1\nSTOREREF 0\nHALT",
        changes: &[],
    },
    CheckTrial {
        name: "17 of a call",
        site: b".UNIT net, 2, 1\nPUSH 1\nPUSH 2\nPUSH net\nCALL\nHALT\nnet: LOADFP\nLOADSP\nSTOREFP\nSTOREFP\nRET 2",
        changes: &[],
    },
    CheckTrial {
        name: "17 before 18 of STORE",
        site: b"STORE 0\nHALT",
        changes: &[],
    },
    CheckTrial {
        name: "17 in a unit that nobody calls",
        site: b".UNIT f, 1, 0\nHALT\nf: LOADFP\nLOADSP\nSTOREFP\nPOP\nSTOREFP\nRET 1",
        changes: &[],
    },
    CheckTrial {
        name: "18 of LOAD at depth 0",
        site: b"LOAD 0\nHALT",
        changes: &[],
    },
    CheckTrial {
        name: "18 of LOAD below the frame",
        site: b"PUSH 1\nLOAD -1\nHALT",
        changes: &[],
    },
    CheckTrial {
        name: "18 of STORE into the main program's caller",
        site: b"PUSH 1\nSTORE 3\nHALT",
        changes: &[],
    },
    CheckTrial {
        name: "18 of STORE into the link",
        site: NET,
        changes: &[Change::Cell(20, 1)],
    },
    CheckTrial {
        name: "18 of the largest offset",
        site: NET,
        changes: &[Change::Cell(20, i32::MAX)],
    },
    CheckTrial {
        name: "19 of RMEM beyond 1,000",
        site: b"RMEM 0\nHALT",
        changes: &[Change::Cell(1, i32::MAX)],
    },
    CheckTrial {
        name: "19 of DUP",
        site: b"RMEM 1000\nDUP\nHALT",
        changes: &[],
    },
    CheckTrial {
        name: "19 of a call",
        site: b".UNIT f, 0, 0\nRMEM 1000\nPUSH f\nCALL\nHALT\nf: LOADFP\nLOADSP\nSTOREFP\nSTOREFP\nRET 0",
        changes: &[],
    },
    CheckTrial {
        name: "a call at depth 999",
        site: b".UNIT f, 0, 0\nRMEM 999\nPUSH f\nCALL\nHALT\nf: LOADFP\nLOADSP\nSTOREFP\nSTOREFP\nRET 0",
        changes: &[],
    },
    CheckTrial {
        name: "20 of two depths",
        site: b"PUSH 1\nBF a\nPUSH 2\na: HALT",
        changes: &[],
    },
    CheckTrial {
        name: "20 of two bodies",
        site: b".UNIT f, 0, 0\nJUMP g\nf: LOADFP\nLOADSP\nSTOREFP\ng: STOREFP\nRET 0",
        changes: &[],
    },
];
