ghost use Rattle.assembler.specs.Handed.{Assembles, handed};

use crate::fit::assemble_fit;
use crate::texts::Texts;
use program::{Assembled, AssemblyCause, Fault, Label, Place, Text, Unit};

// Assembles a site text and a library text into a memory, with slots for labels and for units.
//
// The answer, every cell and every slot afterwards are those that the texts give. A memory that is too small or too
// large and a text that is too long alter nothing; any other refusal leaves memory and slots zero.
pub fn assemble(
    site: &[u8],
    library: &[u8],
    memory: &mut [i32],
    labels: &mut [Label],
    units: &mut [Unit],
) -> Result<Assembled, Fault>
    ensures { Assembles site.now library.now result (handed memory.old labels.old units.old) (handed memory.new labels.new units.new) }
{
    let cells = memory.len();
    if !(16..=65536).contains(&cells) {
        return Err(Fault::Assembly(AssemblyCause::MemorySize, Place::Nowhere));
    }
    if site.len() > 65536 {
        return Err(Fault::Assembly(AssemblyCause::TextLength, Place::Line(Text::Site, 0)));
    }
    if library.len() > 65536 {
        return Err(Fault::Assembly(AssemblyCause::TextLength, Place::Line(Text::Library, 0)));
    }
    assemble_fit(Texts { site, library }, memory, labels, units)
}
