ghost use Rattle.std.specs.Prelude.{◌≡◌, ◌≤◌, min, length, pos};
ghost use Rattle.assembler.specs.Assembly.{first, forms};
ghost use Rattle.assembler.specs.Handed.{Outcome, handed};
ghost use Rattle.assembler.specs.Progress.{Cleared};
ghost use Rattle.program.specs.Records.{NoLabel, NoUnit};

use crate::building::build;
use crate::texts::Texts;
use program::{Assembled, Fault, Label, Unit};
use slots::SlotList;

// Zeros in every cell and slot, written or not.
fn zero_all(written: &mut SlotList<i32>, labels: &mut SlotList<Label>, units: &mut SlotList<Unit>)
    ensures cells { Cleared (λ z. z ≡ pos 0) written.old written.new }
    ensures labels { Cleared NoLabel labels.old labels.new }
    ensures units { Cleared NoUnit units.old units.new }
{
    written.clear(0);
    labels.clear(Label::empty());
    units.clear(Unit::empty());
}

// The same, for a memory and texts of lawful sizes.
pub(crate) fn assemble_fit(
    texts: Texts,
    memory: &mut [i32],
    labels: &mut [Label],
    units: &mut [Unit],
) -> Result<Assembled, Fault>
    requires enough_cells { 16 ≤ length memory.old }
    requires few_cells { length memory.old ≤ 65536 }
    ensures { Outcome result (first (length memory.old) (forms texts.entry.site.now) (forms texts.entry.library.now) (min (length labels.old) 512) (min (length units.old) 64)) (handed memory.old labels.old units.old) (handed memory.new labels.new units.new) }
{
    let cells = memory.len();
    let mut written = SlotList::new(memory, cells);
    let mut label_list = SlotList::new(labels, 512);
    let mut unit_list = SlotList::new(units, 64);
    match build(cells, texts, &mut written, &mut label_list, &mut unit_list) {
        Ok(program) => {
            written.fill_rest(0);
            label_list.fill_rest(Label::empty());
            unit_list.fill_rest(Unit::empty());
            Ok(program)
        }
        Err(fault) => {
            zero_all(&mut written, &mut label_list, &mut unit_list);
            Err(fault)
        }
    }
}
