ghost use Rattle.std.specs.Prelude.{◌≡◌, ◌<◌, [], length};
ghost use Rattle.port.specs.Meaning.{Offered, Taken, Shown, Cleared, meant};
ghost use Rattle.port.specs.Place.{places_in, place_reading};
ghost use Rattle.port.specs.Service.{held_by, held, in_service, after_offer, after_take, after_show, after_clear, SameLenders};

use crate::place::{PLACE, read_place, write_place};
use crate::ports::Port;
use crate::reading::Reading;
use crate::ring::Ring;
use crate::service::ServicePort;
use crate::shown_bytes::ShownBytes;
use program::Fault;

impl<'a> ServicePort<'a> {
    // An empty port over the memories, of which no byte is changed.
    pub fn new(places: &'a mut [u8], bytes: &'a mut [u8]) -> ServicePort<'a>
        ensures empty { in_service result ≡ meant [] [] (places_in places.old) (length bytes.old) }
        ensures bytes { held_by result ≡ held places.old bytes.old 0 0 0 }
        ensures lenders { (result.places.ghost_name ≡ places.entry.ghost_name) × (result.bytes.memory.ghost_name ≡ bytes.entry.ghost_name) }
    {
        ServicePort {
            ring: Ring::new(places.len() / PLACE),
            places,
            bytes: ShownBytes::new(bytes),
        }
    }
}

impl ServicePort<'_> {
    // The reading that stands at a place.
    fn reading_at(&self, place: usize) -> Reading
        requires { place < places_in self.now.places.now }
        ensures { result ≡ place_reading self.now.places.now place }
    {
        read_place(self.places, place)
    }
}

// Stays: the bodies are calls of what both ports share; one impl would need a trait for readings and for these clauses.
impl<'a> Port for ServicePort<'a> {
    ghost meaning = { in_service };

    #[tactic(auto, using(crate::proofs::Places::places_more))]
    fn offer(&mut self, reading: Reading) -> Result<(), Fault>
        ensures offered { Offered (in_service self.old) reading result (in_service self.new) }
        ensures bytes { held_by self.new ≡ after_offer reading result (held_by self.old) }
        ensures lenders { SameLenders self.old self.new }
    {
        let place = self.ring.use_next()?;
        write_place(self.places, place, reading);
        Ok(())
    }

    fn take(&mut self) -> Option<Reading>
        ensures taken { Taken (in_service self.old) result (in_service self.new) }
        ensures bytes { held_by self.new ≡ after_take result (held_by self.old) }
        ensures lenders { SameLenders self.old self.new }
    {
        let place = self.ring.free_first()?;
        Some(self.reading_at(place))
    }

    fn show(&mut self, byte: u8) -> Result<(), Fault>
        ensures shown { Shown (in_service self.old) byte result (in_service self.new) }
        ensures bytes { held_by self.new ≡ after_show byte result (held_by self.old) }
        ensures lenders { SameLenders self.old self.new }
    {
        self.bytes.put(byte)
    }

    fn clear(&mut self)
        ensures cleared { Cleared (in_service self.old) (in_service self.new) }
        ensures bytes { held_by self.new ≡ after_clear (held_by self.old) }
        ensures lenders { SameLenders self.old self.new }
    {
        self.bytes.clear();
    }

    fn openings(&self) -> usize {
        self.ring.unused()
    }

    fn space(&self) -> usize {
        self.bytes.space()
    }

    fn shown(&self) -> usize {
        self.bytes.len()
    }

    fn shown_at(&self, place: usize) -> Option<u8> {
        self.bytes.at(place)
    }
}
