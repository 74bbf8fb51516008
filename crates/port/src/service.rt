ghost use Rattle.std.specs.Prelude.{◌≡◌, ◌/◌, length};

use crate::ring::Ring;
use crate::shown_bytes::ShownBytes;

// A port over two lent memories: readings stand as text in places of 12 bytes, which are a ring, and shown bytes stand
// in the other memory.
#[derive(Drop)]
pub struct ServicePort<'a> {
    pub(crate) places: &'a mut [u8],
    pub(crate) ring: Ring,
    pub(crate) bytes: ShownBytes<&'a mut [u8]>,
    ghost whole: { ring.places ≡ length places.now / 12 },
}
