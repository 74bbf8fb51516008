use crate::fault::Fault;

// A program that a call gives back, with the reason.
#[derive(Drop)]
pub struct Refused<T> {
    pub program: T,
    pub fault: Fault,
}
