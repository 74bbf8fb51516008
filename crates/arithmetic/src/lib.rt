#![tactic(auto)]

// What the arithmetic, logic and comparison instructions make of cells, which are signed 32-bit numbers.
mod operation;

ghost use Rattle.std.specs.Prelude.{◌≡◌, cond, Ok, Err};
ghost use Rattle.arithmetic.specs.Cells.{is_zero, divided, remained, binary, unary};
ghost use Rattle.program.specs.declared.fault.MachineCause.TheVariants.{DivisorZero};

pub use operation::{Binary, Unary};
use program::MachineCause;

// A divisor that is not 0.
fn nonzero(b: i32) -> Result<i32, MachineCause>
    ensures { result ≡ cond (is_zero b) (Err DivisorZero) (Ok b) }
{
    if b == 0 {
        return Err(MachineCause::DivisorZero);
    }
    Ok(b)
}

// The quotient, truncated toward zero.
fn divide(a: i32, b: i32) -> Result<i32, MachineCause>
    ensures { result ≡ divided a b }
{
    a.checked_div(nonzero(b)?).ok_or(MachineCause::Overflow)
}

// The remainder, with the dividend's sign. That of the lowest number by -1 is 0.
fn remainder(a: i32, b: i32) -> Result<i32, MachineCause>
    ensures { result ≡ remained a b }
{
    Ok(a.wrapping_rem(nonzero(b)?))
}

// What an operation makes of two cells: `a` was pushed before `b`.
// Stays: one match over the operations here and in `turn`, since a closure for each would name an enum all the same.
pub fn compute(op: Binary, a: i32, b: i32) -> Result<i32, MachineCause>
    ensures { result ≡ binary op a b }
{
    match op {
        Binary::Add => a.checked_add(b).ok_or(MachineCause::Overflow),
        Binary::Sub => a.checked_sub(b).ok_or(MachineCause::Overflow),
        Binary::Mul => a.checked_mul(b).ok_or(MachineCause::Overflow),
        Binary::Div => divide(a, b),
        Binary::Mod => remainder(a, b),
        Binary::And => Ok(i32::from(a != 0 && b != 0)),
        Binary::Or => Ok(i32::from(a != 0 || b != 0)),
        Binary::Eq => Ok(i32::from(a == b)),
        Binary::Ne => Ok(i32::from(a != b)),
        Binary::Lt => Ok(i32::from(a < b)),
        Binary::Gt => Ok(i32::from(a > b)),
        Binary::Le => Ok(i32::from(a <= b)),
        Binary::Ge => Ok(i32::from(a >= b)),
    }
}

// What an operation makes of one cell.
pub fn turn(op: Unary, a: i32) -> Result<i32, MachineCause>
    ensures { result ≡ unary op a }
{
    match op {
        Unary::Neg => a.checked_neg().ok_or(MachineCause::Overflow),
        Unary::Not => 1i32.checked_sub(a).ok_or(MachineCause::Overflow),
    }
}
