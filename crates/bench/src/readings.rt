ghost use Rattle.std.specs.Prelude.{◌≡◌, ◌++◌, take};
ghost use Rattle.bench.specs.Input.{readings_of};

use crate::input::reading_lines;
use decimal::read;
use port::{Port, Reading};

// Offers the readings of an input, which are the numbers among the lines after the first line `.`, to a port, as many
// as it has openings for.
pub(crate) fn offer_readings<P: Port>(input: &[u8], port: &mut P)
    ensures waiting { (P.meaning port.new).waiting ≡ (P.meaning port.old).waiting ++ take (P.meaning port.old).openings (readings_of input.now) }
    ensures shown { (P.meaning port.new).shown ≡ (P.meaning port.old).shown }
    ensures space { (P.meaning port.new).space ≡ (P.meaning port.old).space }
{
    for line in reading_lines(input) {
        if let Ok(value) = read(line) {
            let _ = port.offer(Reading { value });
        }
    }
}
