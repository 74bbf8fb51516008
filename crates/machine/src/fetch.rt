ghost use Rattle.std.specs.Prelude.{◌≡◌, ◌≤◌, length, take};
ghost use Rattle.isa.specs.Code.{instruction};
ghost use Rattle.machine.specs.Fetch.{fetched, followed};

use isa::{Instruction, decode, length_of};

// The instruction at pc, and the address after it.
#[derive(Clone, Copy)]
pub struct Fetched {
    pub instruction: Instruction,
    pub next: i32,
}

// The two lengths go their own ways, so that the next pc does not wait for what the opcode takes.
// Stays: with isa's instruction_at the arithmetic loop takes 6.7 ns a step; before this pass, the bar, it took 6.4.
fn fetch_at(code: &[i32], at: usize) -> Option<Fetched>
    requires { length code.now ≤ 65536 }
    ensures { result ≡ followed at (instruction code.now at) }
{
    let op = decode(*code.get(at)?)?;
    if length_of(op) == 1 {
        return Some(Fetched {
            instruction: Instruction { op, argument: 0 },
            next: at as i32 + 1,
        });
    }
    Some(Fetched {
        instruction: Instruction {
            op,
            argument: *code.get(at + 1)?,
        },
        next: at as i32 + 2,
    })
}

// The instruction at pc, if it stands whole within the first cells of memory, which are code.
pub(crate) fn fetch(code: usize, pc: i32, memory: &[i32]) -> Option<Fetched>
    requires { (code ≤ length memory.now) × (length memory.now ≤ 65536) }
    ensures { result ≡ fetched (take code memory.now) pc }
{
    fetch_at(&memory[..code], usize::try_from(pc).ok()?)
}
