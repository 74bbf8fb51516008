// An address that can be next after a place, and the depth there. It may lie outside the code.
#[derive(Clone, Copy)]
pub struct Successor {
    pub address: i64,
    pub depth: u16,
}
