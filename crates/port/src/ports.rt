ghost use Rattle.std.specs.Prelude.{◌≡◌, length};
ghost use Rattle.std.specs.List.{slice_get};
ghost use Rattle.port.specs.Meaning.{Meaning, Offered, Taken, Shown, Cleared};

use crate::reading::Reading;
use program::Fault;

// A port: readings wait in it to be taken, and bytes are shown on it.
pub trait Port {
    ghost meaning: { Self → Meaning };

    // One more reading, if there is an opening.
    fn offer(&mut self, reading: Reading) -> Result<(), Fault>
        ensures { Offered (meaning self.old) reading result (meaning self.new) };

    // The first reading that waits.
    fn take(&mut self) -> Option<Reading>
        ensures { Taken (meaning self.old) result (meaning self.new) };

    // One more byte, if there is space.
    fn show(&mut self, byte: u8) -> Result<(), Fault>
        ensures { Shown (meaning self.old) byte result (meaning self.new) };

    // No shown bytes any more.
    fn clear(&mut self)
        ensures { Cleared (meaning self.old) (meaning self.new) };

    // How many more readings may be offered.
    fn openings(&self) -> usize
        ensures { result ≡ (meaning self.now).openings };

    // How many more bytes may be shown.
    fn space(&self) -> usize
        ensures { result ≡ (meaning self.now).space };

    // How many bytes are shown.
    fn shown(&self) -> usize
        ensures { result ≡ length (meaning self.now).shown };

    // The shown byte at a place, counted from 0.
    fn shown_at(&self, place: usize) -> Option<u8>
        ensures { result ≡ slice_get (meaning self.now).shown place };
}
