ghost use Rattle.assembler.specs.Handed.{Assembles, handed};
ghost use Rattle.assembly_laws.specs.Laws.{Upheld};

use assembler::assemble;
use program::{Assembled, Fault, Label, Unit};

// The call of assemble that the laws speak of.
// Stays: a function of its own, since the laws are proved from its clause; its slices are lent, as assemble's are.
fn assemble_once(
    site: &[u8],
    library: &[u8],
    memory: &mut [i32],
    labels: &mut [Label],
    units: &mut [Unit],
) -> Result<Assembled, Fault>
    ensures { Assembles site.now library.now result (handed memory.old labels.old units.old) (handed memory.new labels.new units.new) }
{
    assemble(site, library, memory, labels, units)
}

// Assembles two texts, as assemble does. A program that they give divides into instructions; each label's address is
// where the cells of its line begin; and no two labels have one name.
pub fn assemble_lawfully(
    site: &[u8],
    library: &[u8],
    memory: &mut [i32],
    labels: &mut [Label],
    units: &mut [Unit],
) -> Result<Assembled, Fault>
    ensures outcome { Assembles site.now library.now result (handed memory.old labels.old units.old) (handed memory.new labels.new units.new) }
    ensures upheld { Upheld site.now library.now result (handed memory.new labels.new units.new) }
{
    assemble_once(site, library, memory, labels, units)
}
