ghost use Rattle.std.specs.Prelude.{◌≡◌, ◌≤◌, pos, ◌+ℤ◌, ◌<ℤ◌, MatchResult};
ghost use Rattle.instructions.specs.Tests.{placed, lettered};

use program::MachineCause;

// The address base + offset, if it is from low and below high.
pub(crate) fn place(
    cause: MachineCause,
    base: i32,
    offset: i32,
    low: usize,
    high: usize,
) -> Result<usize, MachineCause>
    requires { high ≤ 65538 }
    ensures { result ≡ placed cause low high (base +ℤ offset) }
{
    base.checked_add(offset)
        .and_then(|address| usize::try_from(address).ok())
        .filter(|address| (low..high).contains(address))
        .ok_or(cause)
}

// The byte that a cell holds.
// Stays: one of any T and cause would promise by TryFrom's clause, and each caller would say again what it reads.
pub(crate) fn letter(cell: i32) -> Result<u8, MachineCause>
    ensures { result ≡ lettered cell }
{
    u8::try_from(cell).map_err(|_| MachineCause::NoCharacter)
}

// The number of cells that an instruction names.
pub(crate) fn cells(count: i32) -> Result<usize, MachineCause>
    ensures { MatchResult result (λ n. count ≡ pos n) (λ e. (count <ℤ pos 0) × (e ≡ MachineCause.NegativeCount)) }
{
    usize::try_from(count).map_err(|_| MachineCause::NegativeCount)
}
