// The rules, as docs/CHECK.md lists them.
// Stays: an address is a u32: as usize only widens it, where try_from would need an unwrap at each use.
ghost use Rattle.std.specs.Prelude.{◌≡◌, ◌-◌, ◌<◌, ◌≤◌, Some, Ok, Err, Decides};
ghost use Rattle.isa.specs.declared.opcode.Opcode.TheVariants.{Call};
ghost use Rattle.plan.specs.Kinds.{table, count, kind};
ghost use Rattle.plan.specs.Programs.{seen, opcode_in};
ghost use Rattle.plan.specs.Rules.{to, after};
ghost use Rattle.plan.specs.Rulings.{Ruled, Ontoed, Called, LowIn};
ghost use Rattle.plan.specs.declared.next.Next.TheVariants.{Fork};
ghost use Rattle.program.specs.declared.fault.CheckCause.TheVariants.{ShallowDepth};

use crate::coded::Coded;
use crate::kind::Kind;
use crate::next::Next;
use crate::planned::Planned;
use crate::row::Row;
use crate::successor::Successor;
use isa::{Instruction, Opcode, instruction_at, length_of};
use program::CheckCause;

fn row(uses: u32, gives: u32, kind: Kind) -> Row
    ensures { result ≡ record { uses = uses; gives = gives; kind = kind } }
{
    Row { uses, gives, kind }
}

// The row of an opcode, with the count in its argument.
pub fn row_of(op: Opcode, count: u32) -> Row
    ensures { result ≡ table op count }
{
    match op {
        Opcode::Push => row(0, 1, Kind::Pushes),
        Opcode::Add | Opcode::Sub | Opcode::Mul | Opcode::Div | Opcode::Mod => row(
            2,
            1,
            Kind::Moves,
        ),
        Opcode::And | Opcode::Or => row(2, 1, Kind::Moves),
        Opcode::Eq | Opcode::Ne | Opcode::Lt | Opcode::Gt | Opcode::Le | Opcode::Ge => row(
            2,
            1,
            Kind::Moves,
        ),
        Opcode::Neg | Opcode::Not | Opcode::Loadref | Opcode::Deref => row(1, 1, Kind::Moves),
        Opcode::Dup => row(1, 2, Kind::Moves),
        Opcode::Swap => row(2, 2, Kind::Moves),
        Opcode::Pop | Opcode::Storehl => row(1, 0, Kind::Moves),
        Opcode::Bprint | Opcode::Cprint | Opcode::Iprint | Opcode::Sprint => row(1, 0, Kind::Moves),
        Opcode::Storeref => row(2, 0, Kind::Moves),
        Opcode::Read | Opcode::Loadhp | Opcode::Loadhl => row(0, 1, Kind::Moves),
        Opcode::Nop | Opcode::Prnln => row(0, 0, Kind::Moves),
        Opcode::Jump => row(0, 0, Kind::Jumps),
        Opcode::Bf | Opcode::Bt => row(1, 0, Kind::Branches),
        Opcode::Load => row(0, 1, Kind::Frames),
        Opcode::Store => row(1, 0, Kind::Frames),
        Opcode::Rmem => row(0, count, Kind::Counts),
        Opcode::Fmem => row(count, 0, Kind::Counts),
        Opcode::Storefp => row(0, 0, Kind::Ends),
        Opcode::Halt => row(0, 0, Kind::Halts),
        Opcode::Call | Opcode::Ret | Opcode::Loadfp | Opcode::Loadsp => row(0, 0, Kind::Ruleless),
        Opcode::Loadpc | Opcode::Storepc | Opcode::Storesp | Opcode::Storehp => row(
            0,
            0,
            Kind::Ruleless,
        ),
    }
}

// Which rule an opcode has, whatever its count.
fn kind_of(op: Opcode) -> Kind
    ensures { result ≡ kind op }
{
    row_of(op, 0).kind
}

// The count in an argument cell; a negative number counts nothing.
fn count_in(cell: i32) -> u32
    ensures { result ≡ count cell }
{
    u32::try_from(cell).unwrap_or(0)
}

// The address after an instruction.
fn address_after(address: u32, i: Instruction) -> i64
    ensures { result ≡ after address i }
{
    i64::from(address) + i64::try_from(length_of(i.op)).unwrap()
}

// The next instruction follows, if the cells that are used are there.
// Stays: address, depth and i are a place and its instruction; a struct of them would be made for one call.
fn onto(address: u32, depth: u16, i: Instruction) -> Result<Next, CheckCause>
    ensures { Ontoed address depth i result }
{
    let row = row_of(i.op, count_in(i.argument));
    let rest = u32::from(depth)
        .checked_sub(row.uses)
        .ok_or(CheckCause::ShallowDepth)?;
    let depth = rest
        .checked_add(row.gives)
        .and_then(|sum| u16::try_from(sum).ok())
        .filter(|depth| *depth <= 1000)
        .ok_or(CheckCause::TooDeep)?;
    Ok(Next::Onward(Successor {
        address: address_after(address, i),
        depth,
    }))
}

// A branch to its target, or on.
fn fork(address: u32, depth: u16, i: Instruction) -> Result<Next, CheckCause>
    ensures { (depth < 1 → result ≡ Err ShallowDepth) × (1 ≤ depth → result ≡ Ok (Fork (to i.argument (depth - 1)) (to (after address i) (depth - 1)))) }
{
    let depth = depth.checked_sub(1).ok_or(CheckCause::ShallowDepth)?;
    let taken = Successor {
        address: i64::from(i.argument),
        depth,
    };
    let next = Successor {
        address: address_after(address, i),
        depth,
    };
    Ok(Next::Fork(taken, next))
}

impl Coded<'_> {
    // The opcode of the whole instruction at an address of the code.
    pub fn opcode_at(&self, address: usize) -> Option<Opcode>
        ensures { result ≡ opcode_in self.now.code.now address }
    {
        instruction_at(self.code, address).map(|i| i.op)
    }

    fn is_call(&self, address: usize) -> bool
        ensures { Decides result (opcode_in self.now.code.now address ≡ Some Call) }
    {
        self.opcode_at(address) == Some(Opcode::Call)
    }

    // A call of the unit whose entry is pushed.
    fn call(&self, address: u32, depth: u16, start: i32) -> Result<Next, CheckCause>
        ensures { Called self.now.units.now address depth start result }
    {
        let v = self.unit_at(start).ok_or(CheckCause::NoRule)?;
        if u32::from(depth) < u32::from(v.arguments) + u32::from(v.results) {
            return Err(CheckCause::ShallowDepth);
        }
        if depth >= 1000 {
            return Err(CheckCause::TooDeep);
        }
        Ok(Next::Onward(Successor {
            address: i64::from(address) + 3,
            depth: depth - u16::from(v.arguments),
        }))
    }

    // The rule of the instruction i at a place: what comes after it, or the cause if no rule fits.
    pub fn rule_at(&self, address: u32, at: Planned, i: Instruction) -> Result<Next, CheckCause>
        ensures ruled { Ruled (seen self.now) address at.body at.depth i result }
        ensures low { at.depth ≤ 1000 → LowIn result }
    {
        match kind_of(i.op) {
            Kind::Moves => onto(address, at.depth, i),
            Kind::Pushes if self.is_call(address as usize + 2) => {
                self.call(address, at.depth, i.argument)
            }
            Kind::Pushes => onto(address, at.depth, i),
            Kind::Ends if self.closes(address, at) => Ok(Next::Last),
            Kind::Halts => Ok(Next::Last),
            Kind::Jumps => Ok(Next::Onward(Successor {
                address: i64::from(i.argument),
                depth: at.depth,
            })),
            Kind::Branches => fork(address, at.depth, i),
            Kind::Frames if u32::from(at.depth) < row_of(i.op, count_in(i.argument)).uses => {
                Err(CheckCause::ShallowDepth)
            }
            Kind::Frames if self.in_frame(at, i.argument) => onto(address, at.depth, i),
            Kind::Frames => Err(CheckCause::OutsideFrame),
            Kind::Counts if 0 <= i.argument => onto(address, at.depth, i),
            Kind::Ruleless | Kind::Ends | Kind::Counts => Err(CheckCause::NoRule),
        }
    }
}
