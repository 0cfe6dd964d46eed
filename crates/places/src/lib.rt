// Sixteen places in one lent store, each empty or holding one record. The layout of the store is known here alone; callers see the list of its records.
#![tactic(auto)]

ghost use Rattle.std.specs.Prelude.{◌≡◌, ℕ, List, []};
ghost use Rattle.run.specs.Image.{image_of};
ghost use Rattle.run.specs.Places.{held};
ghost use Rattle.places.specs.Store.{records_in, Enters, drawn, fresh};

use expression::limits::MOST_RECORD_BYTES;
use limits::{PLACE_COUNT, SLOT_BYTES, STORE_BYTES};
pub use place::Place;
use std::marker::Model;

mod layout;
pub mod limits;
mod place;
mod write;

// A lent store: the places one after the other; all zero is the one whose places are empty.
#[repr(C)]
#[derive(Clone, Copy, Debug, PartialEq, Eq)]
pub struct Store {
    bytes: [u8; STORE_BYTES],
}

impl Model for Store {
    ghost Value = { List ℕ };

    ghost view = { λ store. store.bytes };

    ghost inverse = { λ bytes. record { bytes = bytes } };
}

// Any bytes are a store's, as those that a caller has kept.
impl From<[u8; STORE_BYTES]> for Store {
    ghost from_gives = { λ bytes store. store ≡ bytes };

    fn from(bytes: [u8; STORE_BYTES]) -> Store {
        Store { bytes }
    }
}

impl Store {
    // The bytes, for a caller that keeps or compares them.
    pub fn bytes(&self) -> &[u8; STORE_BYTES]
        ensures { result.now ≡ self.now }
    {
        &self.bytes
    }

    // Every place is empty.
    #[tactic(auto, using(crate::proofs::Ways::fresh_ways))]
    pub fn fresh() -> Self
        ensures { result ≡ fresh }
    {
        Store {
            bytes: [0; STORE_BYTES],
        }
    }

    // The record at a place, as that part of the store; empty where the place is empty or over 15. No `Option`: such a place holds the empty list in
    // the specification, and the tests of held trees take it so.
    pub fn held_record(&self, place: u8) -> &[u8]
        ensures { result.now ≡ held (records_in self.now) place }
    {
        if PLACE_COUNT <= place {
            return &self.bytes[..0];
        }
        let at = layout::slot_at(Place::new(place));
        let from = at + 1;
        &self.bytes[from..from + self.bytes[at] as usize]
    }

    // The place holds the record of these bytes. A place over 15, or a record over 255 bytes, changes nothing.
    pub fn put(&mut self, place: u8, bytes: &[u8])
        ensures { Enters self.old place bytes.now self.new }
    {
        if PLACE_COUNT <= place {
            return;
        }
        if MOST_RECORD_BYTES < bytes.len() {
            return;
        }
        let from = layout::slot_at(Place::new(place));
        write::image(&mut self.bytes[from..from + SLOT_BYTES], bytes);
    }

    // The place is empty. A place over 15 changes nothing.
    pub fn clear(&mut self, place: u8)
        ensures { Enters self.old place [] self.new }
    {
        if PLACE_COUNT <= place {
            return;
        }
        let from = layout::slot_at(Place::new(place));
        self.bytes[from..from + SLOT_BYTES].fill(0);
    }

    // The image of a place, of an empty one where the place is over 15, goes to the front of the output, where there is room for it.
    pub fn draw(&self, place: u8, out: &mut [u8])
        ensures { out.new ≡ drawn (image_of (held (records_in self.now) place)) out.old }
    {
        if out.len() < limits::IMAGE_BYTES {
            return;
        }
        let record = self.held_record(place);
        write::image(&mut out[..limits::IMAGE_BYTES], record);
    }
}
