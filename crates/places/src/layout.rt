// Where the slots of the places stand in the store, as in the specification's `Store`.
ghost use Rattle.std.specs.Prelude.{◌≡◌, ◌+◌, ◌≤◌};
ghost use Rattle.places.specs.Store.{slot_bytes, slot_at, store_bytes};

use crate::limits::SLOT_BYTES;
use crate::place::Place;

// Where the slot of a place begins.
pub fn slot_at(place: Place) -> usize
    ensures at { result ≡ slot_at place.at }
    ensures inside { result + slot_bytes ≤ store_bytes }
{
    SLOT_BYTES * place.at as usize
}
