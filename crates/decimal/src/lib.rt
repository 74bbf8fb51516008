#![tactic(auto)]

// The decimal text of a signed 32-bit number, and the number that such a text writes.
mod numeral;
mod reading;
mod spelling;

pub use numeral::Numeral;
pub use reading::{NumberError, cell_number, is_numeral, read, read_back};
pub use spelling::spell;
