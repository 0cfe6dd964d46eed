// The rebuilding of all places under a new sheet.
ghost use Rattle.std.specs.Prelude.{◌≡◌};
ghost use Rattle.run.specs.Places.{place_count};
ghost use Rattle.run.specs.Panel.{rebuilt_to};
ghost use Rattle.places.specs.Store.{records_in};
ghost use Rattle.monitor.specs.CallContracts.{rebuilt_at};

use expression::limits::MOST_RECORD_BYTES;
use places::limits::PLACE_COUNT;
use places::{Place, Store};
use sheet::Sheet;

// A place's tree becomes the conflict-free tree of its row.
fn one(sheet: &Sheet, places: &mut Store, place: Place)
    ensures { records_in places.new ≡ rebuilt_at sheet.now (records_in places.old) place.at }
{
    let mut buffer = [0u8; MOST_RECORD_BYTES];
    if let Ok(length) = parser::repair_record(sheet, places.held_record(place.at), &mut buffer) {
        places.put(place.at, &buffer[..length]);
    }
}

// Every place's does, in order.
#[tactic(auto, using(crate::proofs::SwitchWays::rebuild_all_ways))]
pub fn all(sheet: &Sheet, places: &mut Store)
    ensures { records_in places.new ≡ rebuilt_to sheet.now place_count (records_in places.old) }
{
    for at in 0..PLACE_COUNT {
        one(sheet, places, Place::new(at));
    }
}
