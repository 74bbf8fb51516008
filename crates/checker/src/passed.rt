use program::Assembled;

// A program that the check has passed. Only the check makes one; it is moved on and never copied.
#[derive(Drop)]
pub struct Passed {
    pub(crate) program: Assembled,
}
