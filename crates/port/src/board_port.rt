ghost use Rattle.std.specs.Prelude.{◌≡◌, []};
ghost use Rattle.port.specs.Meaning.{meant};
ghost use Rattle.port.specs.Board.{on_board};

use crate::board::{BYTES, BoardPort, READINGS};
use crate::ports::Port;
use crate::reading::Reading;
use crate::ring::Ring;
use crate::shown_bytes::ShownBytes;
use program::Fault;

impl BoardPort {
    // An empty port.
    pub fn new() -> BoardPort
        ensures { on_board result ≡ meant [] [] 16 64 }
    {
        BoardPort {
            readings: [Reading { value: 0 }; READINGS],
            ring: Ring::new(READINGS),
            bytes: ShownBytes::new([0; BYTES]),
        }
    }
}

impl Port for BoardPort {
    ghost meaning = { on_board };

    #[tactic(auto, using(crate::proofs::Rings::list_more))]
    fn offer(&mut self, reading: Reading) -> Result<(), Fault> {
        let place = self.ring.use_next()?;
        self.readings[place] = reading;
        Ok(())
    }

    fn take(&mut self) -> Option<Reading> {
        let place = self.ring.free_first()?;
        Some(self.readings[place])
    }

    fn show(&mut self, byte: u8) -> Result<(), Fault> {
        self.bytes.put(byte)
    }

    fn clear(&mut self) {
        self.bytes.clear();
    }

    fn openings(&self) -> usize {
        self.ring.unused()
    }

    fn space(&self) -> usize {
        self.bytes.space()
    }

    fn shown(&self) -> usize {
        self.bytes.len()
    }

    fn shown_at(&self, place: usize) -> Option<u8> {
        self.bytes.at(place)
    }
}
