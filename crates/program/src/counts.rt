// The numbers of a program: the cells of its memory, how many of them are code, data and heap, and how many
// labels and units its texts declare.
#[derive(Clone, Copy, PartialEq, Eq)]
pub struct Counts {
    pub cells: usize,
    pub code: usize,
    pub data: usize,
    pub heap: usize,
    pub labels: usize,
    pub units: usize,
}
