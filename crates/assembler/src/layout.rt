// Sections follow one another in memory: labels get their addresses, and units their entries.
// Stays: the definitions give 0 too where there is no label or number; a check before has refused such a program.
ghost use Rattle.assembler.specs.Cells.{base, laid, opening, word};
ghost use Rattle.assembler.specs.Marks.{entry_of, find as find_mark, mark_of};
ghost use Rattle.assembler.specs.Progress.{Kept, Small, entries, marks};
ghost use Rattle.program.specs.Names.{smalls};
ghost use Rattle.std.specs.Prelude.{◌≡◌, ◌≤◌, map, unwrap_or};

use crate::finding::find;
use crate::tally::Tally;
use program::{Label, Section, Unit};
use slots::SlotList;

// An address, which has 32 bits.
pub(crate) fn address_of(address: usize) -> u32
    ensures { result ≡ word address }
{
    u32::try_from(address).unwrap_or(0)
}

impl Tally {
    // Where a section begins.
    fn base_of(self, section: Section) -> usize
        requires { Small self 1000000000 }
        ensures is { result ≡ base self section }
        ensures small { result ≤ 2000000000 }
    {
        match section {
            Section::Code => 0,
            Section::Data => self.code,
            Section::Heap => self.code + self.data,
        }
    }

    // A label with its address in memory.
    fn placed(self, label: Label) -> Label
        requires { Small self 1000000000 }
        ensures { mark_of result ≡ laid self (mark_of label) }
    {
        // Stays: as usize only widens an address, where try_from would need an unwrap.
        let address = address_of(self.base_of(label.section) + label.address as usize);
        Label { address, ..label }
    }
}

// Labels get their addresses in memory.
pub(crate) fn lay_out(tally: Tally, labels: &mut SlotList<Label>)
    requires { Small tally 1000000000 }
    ensures labels { marks labels.new ≡ map (laid tally) (marks labels.old) }
    ensures kept { Kept labels.old labels.new }
    ensures len { labels.new.len ≡ labels.old.len }
{
    labels.change_each(|label| tally.placed(label));
}

// The address of the label of that name, or 0.
pub(crate) fn entry_of(labels: &[Label], word: &[u8]) -> u32
    ensures { result ≡ unwrap_or (find_mark (smalls word.now) (map mark_of labels.now)) 0 }
{
    find(labels, word).unwrap_or(0)
}

// A unit with its entry.
fn opened(labels: &[Label], unit: Unit) -> Unit
    ensures { entry_of result ≡ opening (map mark_of labels.now) (entry_of unit) }
{
    let entry = entry_of(labels, unit.name.text());
    Unit { entry, ..unit }
}

// Units get their entries, the addresses of their labels.
pub(crate) fn open_units(labels: &[Label], units: &mut SlotList<Unit>)
    ensures units { entries units.new ≡ map (opening (map mark_of labels.now)) (entries units.old) }
    ensures kept { Kept units.old units.new }
    ensures len { units.new.len ≡ units.old.len }
{
    units.change_each(|unit| opened(labels, unit));
}
