ghost use Rattle.std.specs.Prelude.{◌≡◌, ◌-◌, ◌≤◌, length, take};
ghost use Rattle.std.specs.List.{slice_get};
ghost use Rattle.port.specs.Bytes.{Put};

use crate::memory::Memory;
use program::{Fault, Place, PortCause};

// The bytes that a port shows: the first ones of a memory, so many as were written.
// Stays: the device has no heap for a `Vec`, and a `SlotList` is no array, and its `clear` writes every slot.
#[derive(Drop)]
pub(crate) struct ShownBytes<M: Memory> {
    pub(crate) memory: M,
    pub(crate) written: usize,
    ghost short: { written ≤ length (M.content memory) },
}

impl<M: Memory> ShownBytes<M> {
    // A memory of which no byte is shown yet.
    pub(crate) fn new(memory: M) -> ShownBytes<M>
        ensures { (result.memory ≡ memory) × (result.written ≡ 0) }
    {
        ShownBytes { memory, written: 0 }
    }

    // One more byte after the shown ones, if there is space.
    pub(crate) fn put(&mut self, byte: u8) -> Result<(), Fault>
        ensures put { Put byte result (M.content self.old.memory) self.old.written (M.content self.new.memory) self.new.written }
        ensures same { M.Same self.old.memory self.new.memory }
    {
        if self.written >= self.memory.all().len() {
            return Err(Fault::Port(PortCause::NoSpace, Place::Nowhere));
        }
        self.memory.set(self.written, byte);
        self.written += 1;
        Ok(())
    }

    // The shown byte at a place.
    pub(crate) fn at(&self, place: usize) -> Option<u8>
        ensures { result ≡ slice_get (take self.now.written (M.content self.now.memory)) place }
    {
        self.memory.all()[..self.written].get(place).copied()
    }

    // How many bytes are shown.
    pub(crate) fn len(&self) -> usize
        ensures { result ≡ self.now.written }
    {
        self.written
    }

    // How many more bytes may be shown.
    pub(crate) fn space(&self) -> usize
        ensures { result ≡ length (M.content self.now.memory) - self.now.written }
    {
        self.memory.all().len() - self.written
    }

    // No byte is shown any more, and none is changed.
    pub(crate) fn clear(&mut self)
        ensures { (self.new.memory ≡ self.old.memory) × (self.new.written ≡ 0) }
    {
        self.written = 0;
    }
}
