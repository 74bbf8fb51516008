ghost use Rattle.assembler.specs.Sources.{line_of, text_of};
ghost use Rattle.program.specs.Faults.{refusal};
ghost use Rattle.std.specs.Prelude.{◌≡◌, Some, None, MatchOption};

use program::{Fault, Place, Text};
use syntax::line_in;

// The line that a fault names, of whichever text holds it, without the byte that ends it. There is none for line 0,
// for a line that the text does not have, and for a fault that stands elsewhere.
pub fn source_line<'a>(fault: Fault, site: &'a [u8], library: &'a [u8]) -> Option<&'a [u8]>
    ensures { MatchOption result (line_of (refusal fault).place site.now library.now ≡ None) (λ l. line_of (refusal fault).place site.now library.now ≡ Some l.now) }
{
    // Stays: as usize only widens a line's number, where try_from would need an unwrap at each use.
    match fault.place() {
        Place::Line(Text::Site, line) => line_in(site, line as usize),
        Place::Line(Text::Library, line) => line_in(library, line as usize),
        _ => None,
    }
}
