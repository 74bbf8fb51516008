use program::Unit;

// A program as the check sees it: the cells of its code, and its units in their order.
#[derive(Clone, Copy)]
pub struct Coded<'a> {
    pub code: &'a [i32],
    pub units: &'a [Unit],
}
