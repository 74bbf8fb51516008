use crate::successor::Successor;

// What comes after a place: nothing, one successor, or one of two.
// Stays: there is no heap for a list, so the lists of no, one and two successors are the cases.
#[derive(Clone, Copy)]
pub enum Next {
    Last,
    Onward(Successor),
    Fork(Successor, Successor),
}
