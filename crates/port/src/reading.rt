// What a port takes in.
#[derive(Clone, Copy, PartialEq, Eq)]
pub struct Reading {
    pub value: i32,
}
