ghost use Rattle.std.specs.Prelude.{◌≤◌};

// The text of a number: its bytes from `start` on.
// Stays: there is no heap for a text of its own, so the bytes stand here with the place where it starts.
#[derive(Clone, Copy)]
pub struct Numeral {
    pub(crate) bytes: [u8; 11],
    pub(crate) start: usize,
    ghost within: { start ≤ 11 },
}
