ghost use Rattle.std.specs.Prelude.{◌≡◌, ◌^◌, ◌<◌, ◌≤◌, decimal};
ghost use Rattle.std.specs.Fmt.{signed_decimal};
ghost use Rattle.decimal.specs.Numerals.{text_of};

use crate::numeral::Numeral;

impl Numeral {
    // The digits, after a minus if the number is negative.
    pub fn text(&self) -> &[u8]
        ensures { result.now ≡ text_of self.now }
    {
        &self.bytes[self.start..]
    }
}

// The digits of a magnitude, with room for a sign before them.
// Stays: a `for` over the bytes from the last would break where no digit is left, and count that place all the same.
fn spell_size(n: u32) -> Numeral
    requires { n ≤ 2 ^ 31 }
    ensures text { text_of result ≡ decimal n }
    ensures room { 0 < result.start }
{
    let mut bytes = [0u8; 11];
    let mut start: usize = 11;
    let mut rest = n;
    while rest >= 10 {
        start -= 1;
        bytes[start] = b'0' + u8::try_from(rest % 10).unwrap();
        rest /= 10;
    }
    start -= 1;
    bytes[start] = b'0' + u8::try_from(rest).unwrap();
    Numeral { bytes, start }
}

// The number in decimal, with a minus before its digits if it is negative.
pub fn spell(z: i32) -> Numeral
    ensures { text_of result ≡ signed_decimal z }
{
    let size = spell_size(z.unsigned_abs());
    if z >= 0 {
        return size;
    }
    let mut bytes = size.bytes;
    let start = size.start - 1;
    bytes[start] = b'-';
    Numeral { bytes, start }
}
