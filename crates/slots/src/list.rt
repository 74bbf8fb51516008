ghost use Rattle.std.specs.Prelude.{◌≤◌, length};

// A list of at most `room` elements over slots that were handed over for it.
// Stays: there is no heap for a `Vec`, so its length stands beside the slots that it was lent.
#[derive(Drop)]
pub struct SlotList<'a, T> {
    pub(crate) slots: &'a mut [T],
    pub(crate) room: usize,
    pub(crate) len: usize,
    ghost within: { len ≤ room },
    ghost slotted: { room ≤ length slots.now },
}
