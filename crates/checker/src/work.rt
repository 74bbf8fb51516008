ghost use Rattle.std.specs.Prelude.{◌≤◌, length};
ghost use Rattle.slots.specs.Items.{room};

use plan::{Coded, Planned};
use slots::SlotList;

// The work on a program: its plan table, in which each address that begins an instruction has a mark or its place, and
// the list of the addresses that came to a place.
// Stays: Ready and Divided stand in contracts, since the work is made before it is marked, and neither holds till then.
// Stays: `lender` stands beside what a step makes, since it holds of a refusal too; a record of it would be no shorter.
#[derive(Drop)]
pub(crate) struct Work<'a, 's> {
    pub(crate) program: Coded<'a>,
    pub(crate) plan: &'a mut [Option<Planned>],
    pub(crate) list: &'a mut SlotList<'s, u32>,
    ghost small: { length program.code.now ≤ 65536 },
    ghost few: { length program.units.now ≤ 64 },
    ghost table: { length program.code.now ≤ length plan.now },
    ghost slots: { length program.code.now ≤ room list.now },
}
