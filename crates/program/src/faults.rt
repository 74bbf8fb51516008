// The numbers of faults and of their places, as docs/REFUSALS.md lists them.
ghost use Rattle.program.specs.Faults.{assembly_number, check_number, machine_number, port_number, refusal, place_number};
ghost use Rattle.std.specs.Prelude.{◌≡◌};

use crate::fault::{AssemblyCause, CheckCause, Fault, MachineCause, Place, PortCause};

// Stays: four functions `number`: a trait's body can't cast four enums, and a `From` beside each would say it twice.
impl AssemblyCause {
    pub fn number(self) -> u32
        ensures { result ≡ assembly_number self }
    {
        self as u32
    }
}

impl CheckCause {
    pub fn number(self) -> u32
        ensures { result ≡ check_number self }
    {
        self as u32
    }
}

impl MachineCause {
    pub fn number(self) -> u32
        ensures { result ≡ machine_number self }
    {
        self as u32
    }
}

impl PortCause {
    pub fn number(self) -> u32
        ensures { result ≡ port_number self }
    {
        self as u32
    }
}

impl Fault {
    // The number of the cause, from 1 to 35.
    pub fn number(self) -> u32
        ensures { result ≡ (refusal self).number }
    {
        match self {
            Fault::Assembly(cause, _) => cause.number(),
            Fault::Check(cause, _) => cause.number(),
            Fault::Machine(cause, _) => cause.number(),
            Fault::Port(cause, _) => cause.number(),
        }
    }

    pub fn place(self) -> Place
        ensures { result ≡ (refusal self).place }
    {
        match self {
            Fault::Assembly(_, place)
            | Fault::Machine(_, place)
            | Fault::Port(_, place)
            | Fault::Check(_, place) => place,
        }
    }
}

impl Place {
    // The line, the address or pc; 0 nowhere.
    pub fn number(self) -> i64
        ensures { result ≡ place_number self }
    {
        match self {
            Place::Nowhere => 0,
            Place::Line(_, line) => i64::from(line),
            Place::Address(address) => address,
            Place::Counter(pc) => i64::from(pc),
        }
    }
}
