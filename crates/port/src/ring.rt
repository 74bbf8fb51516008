ghost use Rattle.std.specs.Prelude.{◌-◌, ◌≤◌};

// Which places of a ring are in use: so many, from `first` on, and past the last one the ring begins again.
// Stays: the device has no heap for a `VecDeque`; the readings lie in a memory that the port has or was lent.
#[derive(Clone, Copy)]
pub(crate) struct Ring {
    pub(crate) places: usize,
    pub(crate) first: usize,
    pub(crate) count: usize,
    ghost within: { first ≤ places - 1 },
    ghost few: { count ≤ places },
}
