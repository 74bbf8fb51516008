ghost use Rattle.std.specs.Prelude.{◌≤◌};

// A label's name in small letters: its first `len` bytes.
// Stays: a program has no heap for a text of its own, so the bytes stand here with their number.
#[derive(Clone, Copy)]
pub struct Name {
    pub(crate) bytes: [u8; 31],
    pub(crate) len: usize,
    ghost within: { len ≤ 31 },
}
