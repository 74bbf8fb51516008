// One of the two texts that a program is assembled from.
#[derive(Clone, Copy, PartialEq, Eq)]
pub enum Text {
    Site,
    Library,
}

// Where a fault stands: nowhere, at a line of a text (line 0 is the text as a whole), at an address of the
// code, or at the instruction that pc points to.
// Stays: `Nowhere` and line 0, since a place's number, which the programs show, is promised to be 0 for both.
#[derive(Clone, Copy, PartialEq, Eq)]
pub enum Place {
    Nowhere,
    Line(Text, u32),
    Address(i64),
    Counter(i32),
}

// Why two texts do not assemble. Each cause has the number that docs/REFUSALS.md lists for it, here and below.
#[derive(Clone, Copy, PartialEq, Eq)]
pub enum AssemblyCause {
    MemorySize = 1,
    TextLength = 2,
    LineBytes = 3,
    NoForm = 4,
    NumberRange = 5,
    LateUnit = 6,
    WrongSection = 7,
    GivenTwice = 8,
    ListFull = 9,
    ProgramSize = 10,
    NoLabel = 11,
}

// Why a program does not pass the check.
#[derive(Clone, Copy, PartialEq, Eq)]
pub enum CheckCause {
    TableSize = 12,
    MemoryLength = 21,
    NoDivision = 13,
    BadEntry = 14,
    NoInstruction = 15,
    NoRule = 16,
    ShallowDepth = 17,
    OutsideFrame = 18,
    TooDeep = 19,
    DifferentWays = 20,
}

// Why a machine does not run on.
#[derive(Clone, Copy, PartialEq, Eq)]
pub enum MachineCause {
    MemoryLength = 21,
    NoInstruction = 22,
    NegativeCount = 23,
    StackUnderflow = 24,
    OutsideStack = 25,
    StackPointer = 26,
    StackMeetsHeap = 27,
    NullReference = 28,
    ReferenceRange = 29,
    DivisorZero = 30,
    Overflow = 31,
    NoCharacter = 32,
    HeapLimit = 33,
}

// Why a port takes no more.
#[derive(Clone, Copy, PartialEq, Eq)]
pub enum PortCause {
    NoOpening = 34,
    NoSpace = 35,
}

// A refusal or a fault: the layer that speaks, its cause, and its place.
#[derive(Clone, Copy, PartialEq, Eq)]
pub enum Fault {
    Assembly(AssemblyCause, Place),
    Check(CheckCause, Place),
    Machine(MachineCause, Place),
    Port(PortCause, Place),
}
