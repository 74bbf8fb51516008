ghost use Rattle.std.specs.Prelude.{◌≡◌, ◌≤◌};
ghost use Rattle.port.specs.declared.board.TheConstants.{READINGS, BYTES};

use crate::reading::Reading;
use crate::ring::Ring;
use crate::shown_bytes::ShownBytes;

// The room of the port on the board.
pub(crate) const READINGS: usize = 16;

pub(crate) const BYTES: usize = 64;

// A port with room for 16 readings and 64 bytes. The readings wait in a ring.
#[derive(Drop)]
pub struct BoardPort {
    pub(crate) readings: [Reading; READINGS],
    pub(crate) ring: Ring,
    pub(crate) bytes: ShownBytes<[u8; BYTES]>,
    ghost whole: { ring.places ≡ READINGS },
}
