use crate::quoting::Quoted;
use assembler::assemble;
use bench::{NET, Refusal, outcome_text, refusal_text, shown_bytes};
use machine::{Machine, bench_start, run};
use port::{BoardPort, Port, Reading, ServicePort};
use program::{Assembled, Label, Refused, Unit};
use std::alloc::{AllocError, Global};

// What is done with a started program: a run, an offer, a clear, or a number put into a cell from outside.
#[derive(Clone, Copy)]
pub(crate) enum Act {
    Run(u32),
    Offer(i32),
    Clear,
    Poke(usize, i32),
}

// A program, assembled into so many cells, and what is done with it.
#[derive(Clone, Copy)]
pub(crate) struct Trial {
    pub name: &'static str,
    pub cells: usize,
    pub site: &'static [u8],
    pub acts: &'static [Act],
}

pub(crate) const TRIALS: [Trial; 66] = [
    Trial {
        name: "net",
        cells: 1024,
        site: NET,
        acts: &[Act::Run(100)],
    },
    Trial {
        name: "net in 31 cells",
        cells: 31,
        site: NET,
        acts: &[Act::Run(100)],
    },
    Trial {
        name: "net in 30 cells",
        cells: 30,
        site: NET,
        acts: &[Act::Run(100)],
    },
    Trial {
        name: "spent, on, and halted again",
        cells: 1024,
        site: NET,
        acts: &[Act::Run(0), Act::Run(15), Act::Run(1), Act::Run(9)],
    },
    Trial {
        name: "halt on the last step",
        cells: 16,
        site: b"HALT",
        acts: &[Act::Run(1)],
    },
    Trial {
        name: "22 without code",
        cells: 16,
        site: b"",
        acts: &[Act::Run(0), Act::Run(1), Act::Run(1)],
    },
    Trial {
        name: "22 past the code",
        cells: 16,
        site: b"NOP",
        acts: &[Act::Run(9)],
    },
    Trial {
        name: "22 below the code",
        cells: 16,
        site: b"PUSH -1\nSTOREPC",
        acts: &[Act::Run(9)],
    },
    Trial {
        name: "22 in data",
        cells: 16,
        site: b"JUMP x\n.DATA\nx: DW 42",
        acts: &[Act::Run(9)],
    },
    Trial {
        name: "22 at half an instruction",
        cells: 16,
        site: b"NOP",
        acts: &[Act::Poke(0, 1), Act::Run(9)],
    },
    Trial {
        name: "22 at opcode 50",
        cells: 16,
        site: b"NOP",
        acts: &[Act::Poke(0, 50), Act::Run(9)],
    },
    Trial {
        name: "pc on an argument",
        cells: 16,
        site: b"PUSH 42\nPUSH 1\nSTOREPC",
        acts: &[Act::Run(9)],
    },
    Trial {
        name: "23 of RMEM",
        cells: 16,
        site: b"RMEM 0",
        acts: &[Act::Poke(1, -1), Act::Run(9)],
    },
    Trial {
        name: "23 of FMEM",
        cells: 16,
        site: b"FMEM 0",
        acts: &[Act::Poke(1, -1), Act::Run(9)],
    },
    Trial {
        name: "23 of RET",
        cells: 16,
        site: b"RET 0",
        acts: &[Act::Poke(1, i32::MIN), Act::Run(9)],
    },
    Trial {
        name: "24 of ADD",
        cells: 16,
        site: b"PUSH 1\nADD",
        acts: &[Act::Run(9), Act::Run(9)],
    },
    Trial {
        name: "24 of POP",
        cells: 16,
        site: b"POP",
        acts: &[Act::Run(9)],
    },
    Trial {
        name: "24 of RET",
        cells: 16,
        site: b"PUSH 0\nRET 1",
        acts: &[Act::Run(9)],
    },
    Trial {
        name: "24 of FMEM",
        cells: 16,
        site: b"RMEM 3\nFMEM 4",
        acts: &[Act::Run(9)],
    },
    Trial {
        name: "25 of LOAD on an empty stack",
        cells: 16,
        site: b"LOAD 0",
        acts: &[Act::Run(9)],
    },
    Trial {
        name: "25 of LOAD past memory",
        cells: 16,
        site: b"PUSH 1\nLOAD 1",
        acts: &[Act::Run(9)],
    },
    Trial {
        name: "25 of STORE below the stack",
        cells: 16,
        site: b"PUSH 1\nSTORE -1",
        acts: &[Act::Run(9)],
    },
    Trial {
        name: "25 of a sum beyond 32 bits",
        cells: 32,
        site: b"PUSH 2147483647\nSTOREFP\nPUSH 1\nLOAD 2147483647",
        acts: &[Act::Run(9)],
    },
    Trial {
        name: "STORE into its own cell",
        cells: 16,
        site: b"PUSH 7\nSTORE 0\nRMEM 1\nIPRINT\nHALT",
        acts: &[Act::Run(9)],
    },
    Trial {
        name: "26 at hl",
        cells: 32,
        site: b"PUSH 2\nSTORESP",
        acts: &[Act::Run(9)],
    },
    Trial {
        name: "26 past memory",
        cells: 32,
        site: b"PUSH 33\nSTORESP",
        acts: &[Act::Run(9)],
    },
    Trial {
        name: "STORESP to hl + 1",
        cells: 32,
        site: b"PUSH 4\nSTORESP\nHALT",
        acts: &[Act::Run(9)],
    },
    Trial {
        name: "STORESP to n",
        cells: 32,
        site: b"PUSH 32\nSTORESP\nHALT",
        acts: &[Act::Run(9)],
    },
    Trial {
        name: "27 of a loop of pushes",
        cells: 16,
        site: b"a: PUSH 1\nJUMP a",
        acts: &[Act::Run(99)],
    },
    Trial {
        name: "27 of RMEM",
        cells: 16,
        site: b"RMEM 12\nRMEM 1",
        acts: &[Act::Run(9)],
    },
    Trial {
        name: "27 before a wait",
        cells: 16,
        site: b"RMEM 13\nREAD",
        acts: &[Act::Run(9)],
    },
    Trial {
        name: "28 of DEREF",
        cells: 16,
        site: b"PUSH 0\nDEREF",
        acts: &[Act::Run(9)],
    },
    Trial {
        name: "28 before the offset",
        cells: 16,
        site: b"PUSH 0\nLOADREF 5\n.DATA\nDW 1, 2",
        acts: &[Act::Run(9)],
    },
    Trial {
        name: "28 of STOREREF",
        cells: 16,
        site: b"PUSH 0\nPUSH 1\nSTOREREF 9",
        acts: &[Act::Run(9)],
    },
    Trial {
        name: "28 of SPRINT",
        cells: 16,
        site: b"PUSH 0\nSPRINT",
        acts: &[Act::Run(9)],
    },
    Trial {
        name: "29 in code",
        cells: 16,
        site: b"PUSH 1\nDEREF",
        acts: &[Act::Run(9)],
    },
    Trial {
        name: "29 past the heap",
        cells: 16,
        site: b"PUSH x\nLOADREF 2\n.HEAP\nx: DW 1, 2",
        acts: &[Act::Run(9)],
    },
    Trial {
        name: "29 of a write into code",
        cells: 16,
        site: b"PUSH 5\nPUSH 42\nSTOREREF -3",
        acts: &[Act::Run(9)],
    },
    Trial {
        name: "29 of a sum beyond 32 bits",
        cells: 16,
        site: b"PUSH 2147483647\nLOADREF 2147483647",
        acts: &[Act::Run(9)],
    },
    Trial {
        name: "29 of a negative reference",
        cells: 16,
        site: b"PUSH -1\nDEREF",
        acts: &[Act::Run(9)],
    },
    Trial {
        name: "reference outside, sum inside",
        cells: 32,
        site: b"PUSH 1000\nLOADREF -994\nIPRINT\nHALT\n.DATA\nDW -77",
        acts: &[Act::Run(9)],
    },
    Trial {
        name: "32 at 256",
        cells: 16,
        site: b"PUSH 256\nCPRINT",
        acts: &[Act::Run(9)],
    },
    Trial {
        name: "32 at -1",
        cells: 16,
        site: b"PUSH -1\nCPRINT",
        acts: &[Act::Run(9)],
    },
    Trial {
        name: "32 in a string",
        cells: 32,
        site: b"PUSH x\nSPRINT\n.DATA\nx: DW 65, 300, 0",
        acts: &[Act::Run(9)],
    },
    Trial {
        name: "33 below the data",
        cells: 32,
        site: b"PUSH 2\nSTOREHL\n.DATA\nDW 9",
        acts: &[Act::Run(9)],
    },
    Trial {
        name: "33 past sp",
        cells: 32,
        site: b"PUSH 32\nSTOREHL",
        acts: &[Act::Run(9)],
    },
    Trial {
        name: "STOREHL to C + D - 1 and to sp, then 27",
        cells: 32,
        site: b"PUSH 6\nSTOREHL\nPUSH 31\nSTOREHL\nLOADHL",
        acts: &[Act::Run(9)],
    },
    Trial {
        name: "heap grown by two cells",
        cells: 64,
        site: b"LOADHL\nPUSH 2\nADD\nSTOREHL\nPUSH x\nPUSH -8\nSTOREREF 2\nPUSH x\nLOADREF 2\nIPRINT\nHALT\n.HEAP\nx: DW 1",
        acts: &[Act::Run(99)],
    },
    Trial {
        name: "registers at start",
        cells: 64,
        site: b"LOADFP\nIPRINT\nPRNLN\nLOADHP\nIPRINT\nPRNLN\nLOADHL\nIPRINT\nPRNLN\nLOADPC\nIPRINT\nHALT\n.DATA\nDW 1, 2\n.HEAP\nDW 1",
        acts: &[Act::Run(99)],
    },
    Trial {
        name: "LOADSP pushes the new sp",
        cells: 64,
        site: b"LOADSP\nIPRINT\nHALT",
        acts: &[Act::Run(9)],
    },
    Trial {
        name: "CALL stores the next address",
        cells: 64,
        site: b"PUSH f\nCALL\nHALT\nf: DUP\nIPRINT\nRET 0",
        acts: &[Act::Run(9)],
    },
    Trial {
        name: "SWAP leaves the cell below",
        cells: 64,
        site: b"PUSH 1\nPUSH 2\nPUSH 9\nPOP\nSWAP\nRMEM 1\nIPRINT\nIPRINT\nIPRINT\nHALT",
        acts: &[Act::Run(99)],
    },
    Trial {
        name: "CALL leaves the cell below",
        cells: 64,
        site: b"PUSH f\nPUSH 9\nPOP\nCALL\nf: RMEM 1\nIPRINT\nIPRINT\nHALT",
        acts: &[Act::Run(99)],
    },
    Trial {
        name: "BF and BT",
        cells: 64,
        site: b"PUSH 0\nBF a\nHALT\na: PUSH -3\nBF b\nPUSH -3\nBT c\nb: HALT\nc: PUSH 0\nBT b\nPUSH 1\nIPRINT\nHALT",
        acts: &[Act::Run(99)],
    },
    Trial {
        name: "READ that waits",
        cells: 16,
        site: b"READ\nIPRINT\nHALT",
        acts: &[Act::Run(9), Act::Run(9), Act::Offer(-7), Act::Run(9)],
    },
    Trial {
        name: "READs in order",
        cells: 32,
        site: b"a: READ\nIPRINT\nJUMP a",
        acts: &[
            Act::Offer(5),
            Act::Offer(-6),
            Act::Run(99),
            Act::Offer(i32::MAX),
            Act::Run(99),
            Act::Run(99),
        ],
    },
    Trial {
        name: "READ after spent",
        cells: 16,
        site: b"NOP\nREAD\nIPRINT\nHALT",
        acts: &[Act::Offer(1), Act::Run(1), Act::Run(1), Act::Run(9)],
    },
    Trial {
        name: "space for a number",
        cells: 16,
        site: b"a: PUSH -2147483648\nIPRINT\nJUMP a",
        acts: &[Act::Run(99), Act::Run(99), Act::Clear, Act::Run(10)],
    },
    Trial {
        name: "space for true and not for false",
        cells: 64,
        site: b"RMEM 1\nPUSH 5\nSTORE 0\na: PUSH -2147483648\nIPRINT\nLOAD 0\nPUSH 1\nSUB\nDUP\nSTORE 0\nBT a\nPUSH 12345\nIPRINT\nPUSH 0\nBPRINT\nPUSH -1\nBPRINT\nHALT",
        acts: &[Act::Run(99), Act::Clear, Act::Run(99)],
    },
    Trial {
        name: "string of 70 on 64 bytes",
        cells: 96,
        site: b"PUSH s\nSPRINT\nHALT\n.DATA\ns: DW 70 DUP(65)\nDW 0",
        acts: &[Act::Run(99), Act::Clear, Act::Run(99)],
    },
    Trial {
        name: "string of 64 on 64 bytes",
        cells: 96,
        site: b"PUSH s\nSPRINT\nHALT\n.DATA\ns: DW 64 DUP(66)\nDW 0",
        acts: &[Act::Run(99)],
    },
    Trial {
        name: "32 before space",
        cells: 96,
        site: b"PUSH s\nSPRINT\nPUSH 256\nCPRINT\n.DATA\ns: DW 64 DUP(66)\nDW 0",
        acts: &[Act::Run(99)],
    },
    Trial {
        name: "string in parts",
        cells: 32,
        site: b"PUSH s\nSPRINT\nHALT\n.DATA\ns: DW \"gate\", 0",
        acts: &[Act::Run(3), Act::Run(99)],
    },
    Trial {
        name: "empty string",
        cells: 32,
        site: b"PUSH s\nSPRINT\nHALT\n.DATA\ns: DW 0",
        acts: &[Act::Run(99)],
    },
    Trial {
        name: "byte 0 and byte 255",
        cells: 32,
        site: b"PUSH 0\nCPRINT\nPUSH 255\nCPRINT\nHALT",
        acts: &[Act::Run(99)],
    },
    Trial {
        name: "a text that does not assemble",
        cells: 32,
        site: b"NOP\nPUSH\n",
        acts: &[Act::Run(9)],
    },
];

// Writes the bytes that a port shows, in quotes.
fn write_shown<P: Port>(out: &mut String, port: &P) -> anyhow::Result<()> {
    let bytes = shown_bytes(*out.allocator(), port)?;
    write!(out, " shows \"{}\"", Quoted(&bytes))?;
    Ok(())
}

// Runs a machine for so many steps at most, and answers what came of it.
// Stays: lengths runs one machine over two memories, so machine, memory and port stand apart here and in write_act.
pub(crate) fn run_text<P: Port>(
    heap: Global,
    machine: &mut Machine,
    memory: &mut [i32],
    port: &mut P,
    allowance: u32,
) -> Result<String, AllocError> {
    match run(machine, memory, port, allowance) {
        Ok(report) => outcome_text(heap, report, machine.registers().pc),
        Err(fault) => refusal_text(heap, fault),
    }
}

// Does one act, and writes what came of it.
fn write_act<P: Port>(
    out: &mut String,
    act: Act,
    machine: &mut Machine,
    memory: &mut [i32],
    port: &mut P,
) -> anyhow::Result<()> {
    let heap = *out.allocator();
    let text = match act {
        Act::Run(allowance) => run_text(heap, machine, memory, port, allowance)?,
        Act::Offer(value) => match port.offer(Reading { value }) {
            Ok(()) => format!(in heap; "offered {value}")?,
            Err(fault) => refusal_text(heap, fault)?,
        },
        Act::Clear => {
            write_shown(out, port)?;
            port.clear();
            String::from_str(heap, "and is cleared")?
        }
        Act::Poke(address, value) => {
            if let Some(cell) = memory.get_mut(address) {
                *cell = value;
            }
            format!(in heap; "cell {address} is {value}")?
        }
    };
    write!(out, " {text};")?;
    Ok(())
}

// Starts a program and does the acts one after another.
fn write_acts<P: Port>(
    out: &mut String,
    acts: &[Act],
    program: Assembled,
    memory: &mut [i32],
    port: &mut P,
) -> anyhow::Result<()> {
    match bench_start(program, memory) {
        Ok(mut machine) => {
            for act in acts {
                write_act(out, *act, &mut machine, memory, port)?;
            }
            write_shown(out, port)
        }
        Err(Refused { fault, .. }) => {
            write!(out, " {}", Refusal(fault))?;
            Ok(())
        }
    }
}

// What a trial gives over a port.
fn answer_over<P: Port>(heap: Global, trial: &Trial, port: &mut P) -> anyhow::Result<String> {
    let mut out = String::new(heap);
    let mut memory = vec![in heap; 0; trial.cells]?;
    let mut labels = [Label::empty(); 4];
    let mut units = [Unit::empty(); 2];
    match assemble(trial.site, b"", &mut memory, &mut labels, &mut units) {
        Ok(program) => write_acts(&mut out, trial.acts, program, &mut memory, port)?,
        Err(fault) => write!(out, " {}", Refusal(fault))?,
    }
    Ok(out)
}

// The name of a trial, what it gives over the board port, and whether a service port of its size gives the same.
pub(crate) fn trial_answer(heap: Global, trial: &Trial) -> anyhow::Result<String> {
    let name = trial.name;
    let answer = answer_over(heap, trial, &mut BoardPort::new())?;
    let mut places = [0; 192];
    let mut bytes = [0; 64];
    let other = answer_over(heap, trial, &mut ServicePort::new(&mut places, &mut bytes))?;
    let mut out = format!(in heap; "{name}:{answer}")?;
    if answer != other {
        write!(out, " but over the service port{other}")?;
    }
    Ok(out)
}
