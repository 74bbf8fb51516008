ghost use Rattle.std.specs.Prelude.{◌≡◌, ◌<◌, ◌≤◌, true, false, pos, neg_ℤ, Ok, MatchOption};
ghost use Rattle.decimal.specs.Numbers.{are_all_digits, is_numeral_text, natural, numeral, capped, cell_range};
ghost use Rattle.decimal.specs.Numerals.{text_of};
ghost use Rattle.decimal.specs.Reading.{read_as};

use crate::numeral::Numeral;
use crate::spelling::spell;

// Why a text gives no number of 32 signed bits.
#[derive(Clone, Copy)]
pub enum NumberError {
    NoNumber,
    OutOfRange,
}

// One past the largest magnitude of a number of 32 signed bits.
const LARGEST: u64 = 2147483649;

// At least one digit, and nothing else?
fn are_digits(text: &[u8]) -> bool
    ensures { result ≡ are_all_digits text.now }
{
    !text.is_empty() && text.iter().all(|byte| byte.is_ascii_digit())
}

// Digits, after a minus or after nothing?
pub fn is_numeral(text: &[u8]) -> bool
    ensures { result ≡ is_numeral_text text.now }
{
    match text {
        [b'-', digits @ ..] => are_digits(digits),
        _ => are_digits(text),
    }
}

// The number that decimal digits write, or 2147483649 where it is larger.
fn magnitude(digits: &[u8]) -> u64
    ensures { result ≡ capped (natural 0 digits.now) }
{
    digits.iter().fold(0, |n: u64, byte| {
        let digit = u64::from(byte.saturating_sub(b'0'));
        n.saturating_mul(10).saturating_add(digit).min(LARGEST)
    })
}

// -m, if it has 32 signed bits.
fn negative(m: u64) -> Option<i32>
    ensures { MatchOption result (2147483648 < m) (λ z. (m ≤ 2147483648) × (z ≡ neg_ℤ (pos m))) }
{
    let m = i64::try_from(m).ok()?;
    i32::try_from(-m).ok()
}

// The number that a text writes, if it has 32 signed bits.
pub fn cell_number(text: &[u8]) -> Option<i32>
    ensures { MatchOption result (cell_range (numeral text.now) ≡ false) (λ z. (cell_range (numeral text.now) ≡ true) × (z ≡ numeral text.now)) }
{
    match text {
        [b'-', digits @ ..] => negative(magnitude(digits)),
        _ => i32::try_from(magnitude(text)).ok(),
    }
}

// The number that a text writes, where it is a numeral of 32 signed bits.
pub fn read(text: &[u8]) -> Result<i32, NumberError>
    ensures { result ≡ read_as text.now }
{
    if !is_numeral(text) {
        return Err(NumberError::NoNumber);
    }
    cell_number(text).ok_or(NumberError::OutOfRange)
}

// The number spelled; its text reads as the number.
// Stays: a function of its own, since that a number is read back is proved from its clause.
fn spelled(z: i32) -> Numeral
    ensures { read_as (text_of result) ≡ Ok z }
{
    spell(z)
}

// A number spelled and read again: the number itself.
pub fn read_back(z: i32) -> Result<i32, NumberError>
    ensures { result ≡ Ok z }
{
    let numeral = spelled(z);
    read(numeral.text())
}
