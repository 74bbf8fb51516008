ghost use Rattle.std.specs.Prelude.{◌≡◌, ◌+◌, ◌-◌, ◌≤◌};
ghost use Rattle.port.specs.Ring.{wrapped, Used, Freed};

use crate::ring::Ring;
use program::{Fault, Place, PortCause};

impl Ring {
    // A ring of places that are all free.
    pub(crate) fn new(places: usize) -> Ring
        ensures { (result.places ≡ places) × (result.first ≡ 0) × (result.count ≡ 0) }
    {
        Ring {
            places,
            first: 0,
            count: 0,
        }
    }

    // The place that comes so many places after the first.
    fn after_first(&self, on: usize) -> usize
        requires { on ≤ self.now.places }
        ensures { result ≡ wrapped self.now.places (self.now.first + on) }
    {
        let before_end = self.places - self.first;
        if on < before_end {
            self.first + on
        } else {
            on - before_end
        }
    }

    // Takes the place after the last one into use, if one is free, and answers which it is.
    pub(crate) fn use_next(&mut self) -> Result<usize, Fault>
        ensures { Used self.old result self.new }
    {
        if self.count == self.places {
            return Err(Fault::Port(PortCause::NoOpening, Place::Nowhere));
        }
        let place = self.after_first(self.count);
        self.count += 1;
        Ok(place)
    }

    // Frees the first place in use, and answers which it is.
    pub(crate) fn free_first(&mut self) -> Option<usize>
        ensures { Freed self.old result self.new }
    {
        if self.count == 0 {
            return None;
        }
        let place = self.first;
        self.first = self.after_first(1);
        self.count -= 1;
        Some(place)
    }

    // How many places are free.
    pub(crate) fn unused(&self) -> usize
        ensures { result ≡ self.now.places - self.now.count }
    {
        self.places - self.count
    }
}
