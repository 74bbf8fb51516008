ghost use Rattle.std.specs.Prelude.{◌≡◌, IfOk};

use port::Port;
use std::alloc::{AllocError, Global};

// The bytes that a port shows, in order.
pub fn shown_bytes<P: Port>(heap: Global, port: &P) -> Result<Vec<u8>, AllocError>
    ensures { IfOk result (λ v. v.items ≡ (P.meaning port.now).shown) }
{
    (0..port.shown())
        .filter_map(|place| port.shown_at(place))
        .collect(heap)
}
