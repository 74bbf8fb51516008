ghost use Rattle.std.specs.Prelude.{◌≡◌, ◌<◌};
ghost use Rattle.port.specs.Place.{places_in, padded, placed, up_to_space, place_reading};

use crate::reading::Reading;
use decimal::{read, spell};

// How many bytes a place has: enough for the numeral of any reading.
pub(crate) const PLACE: usize = 12;

// The bytes before the first space.
fn before_space(bytes: &[u8]) -> &[u8]
    ensures { result.now ≡ up_to_space bytes.now }
{
    let space = bytes.iter().position(|byte| *byte == b' ');
    &bytes[..space.unwrap_or(bytes.len())]
}

// The reading that stands at a place: the number that is written there, or 0.
// Stays: a reading has to come out of each place in use, and the bytes of a lent memory may spell no number: 0 then.
pub(crate) fn read_place(places: &[u8], place: usize) -> Reading
    requires { place < places_in places.now }
    ensures { result ≡ place_reading places.now place }
{
    let start = PLACE * place;
    let text = before_space(&places[start..start + PLACE]);
    Reading {
        value: read(text).unwrap_or(0),
    }
}

// A reading as a place holds it.
fn text_of(reading: Reading) -> [u8; PLACE]
    ensures { result ≡ padded reading }
{
    let numeral = spell(reading.value);
    let text = numeral.text();
    let mut place = [b' '; PLACE];
    place[..text.len()].copy_from_slice(text);
    place
}

// A reading written into a place.
pub(crate) fn write_place(places: &mut [u8], place: usize, reading: Reading)
    requires { place < places_in places.old }
    ensures { places.new ≡ placed places.old place reading }
{
    let start = PLACE * place;
    places[start..start + PLACE].copy_from_slice(&text_of(reading));
}
