use program::CheckCause;

// Why no plan is lawful, and the address that shows it.
#[derive(Clone, Copy)]
pub(crate) struct Finding {
    pub(crate) cause: CheckCause,
    pub(crate) address: i64,
}
