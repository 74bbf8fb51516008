ghost use Rattle.assembler.specs.Handed.{Assembles, handed};
ghost use Rattle.assembly_laws.specs.Twice.{Repeats};

use assembler::assemble;
use program::{Assembled, Fault, Label, Unit};

// The same texts, assembled into one memory and then into the other.
// Stays: the public signature lends each slice, as `assemble` does; a struct of them would be taken apart at once.
fn assemble_both(
    site: &[u8],
    library: &[u8],
    memory: &mut [i32],
    labels: &mut [Label],
    units: &mut [Unit],
    other_memory: &mut [i32],
    other_labels: &mut [Label],
    other_units: &mut [Unit],
) -> (Result<Assembled, Fault>, Result<Assembled, Fault>)
    ensures first { Assembles site.now library.now result.0 (handed memory.old labels.old units.old) (handed memory.new labels.new units.new) }
    ensures second { Assembles site.now library.now result.1 (handed other_memory.old other_labels.old other_units.old) (handed other_memory.new other_labels.new other_units.new) }
{
    let first = assemble(site, library, memory, labels, units);
    let second = assemble(site, library, other_memory, other_labels, other_units);
    (first, second)
}

// Assembles the same texts into two memories, each with its own slots. For memories of one length and slots of one
// number both answers are the same, and so are the cells, labels and units that are left, whatever stood there before.
pub fn assemble_twice(
    site: &[u8],
    library: &[u8],
    memory: &mut [i32],
    labels: &mut [Label],
    units: &mut [Unit],
    other_memory: &mut [i32],
    other_labels: &mut [Label],
    other_units: &mut [Unit],
) -> (Result<Assembled, Fault>, Result<Assembled, Fault>)
    ensures first { Assembles site.now library.now result.0 (handed memory.old labels.old units.old) (handed memory.new labels.new units.new) }
    ensures second { Assembles site.now library.now result.1 (handed other_memory.old other_labels.old other_units.old) (handed other_memory.new other_labels.new other_units.new) }
    ensures repeats { Repeats site.now library.now result.0 result.1 (handed memory.old labels.old units.old) (handed memory.new labels.new units.new) (handed other_memory.old other_labels.old other_units.old) (handed other_memory.new other_labels.new other_units.new) }
{
    assemble_both(
        site,
        library,
        memory,
        labels,
        units,
        other_memory,
        other_labels,
        other_units,
    )
}
