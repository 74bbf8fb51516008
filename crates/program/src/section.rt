// A part of the memory that lines assemble into.
#[derive(Clone, Copy, PartialEq, Eq)]
pub enum Section {
    Code,
    Data,
    Heap,
}
