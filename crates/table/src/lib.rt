#![tactic(auto)]

// The proved table of examples.
ghost use Rattle.std.specs.List.{AllByRecursion};
ghost use Rattle.table.specs.Examples.{examples};
ghost use Rattle.table.specs.Rows.{Stands};
ghost use Rattle.std.specs.Prelude.{◌≡◌, length};

// How many rows the table has.
// Stays: the table is text of the proofs alone, so no code has its rows to count.
fn rows() -> usize
    ensures { result ≡ length examples }
{
    15
}

// Every row of the table stands. It answers how many there are.
pub fn examples_stand() -> usize
    ensures stand { AllByRecursion Stands examples }
    ensures rows { result ≡ length examples }
{
    rows()
}
