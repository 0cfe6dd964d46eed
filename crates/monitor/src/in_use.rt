// Whether a held tree uses an operator that a new sheet does not have, or has as another kind.
ghost use Rattle.std.specs.Prelude.{◌≡◌, not, ◌&&◌, [], ltb};
ghost use Rattle.expression.specs.Limits.{most_operators};
ghost use Rattle.expression.specs.Lists.{any_holds};
ghost use Rattle.expression.specs.Token.{operators};
ghost use Rattle.sheet.specs.Layout.{operators_of};
ghost use Rattle.sheet.specs.Relation.{bit_of};
ghost use Rattle.run.specs.Places.{held};
ghost use Rattle.places.specs.Store.{records_in};
ghost use Rattle.run.specs.Panel.{beyond, in_use_check};
ghost use Rattle.monitor.specs.CallContracts.{uses_by, some_use};

use expression::bytes;
use expression::limits::MOST_OPERATORS;
use places::limits::PLACE_COUNT;
use places::{Place, Store};
use sheet::Sheet;

// The byte is an operator not below n.
#[tactic(auto, using(crate::proofs::UseWays::is_beyond_ways))]
fn is_beyond(n: u8, byte: u8) -> bool
    ensures { result ≡ (ltb byte most_operators && not (ltb byte n)) }
{
    (n <= byte) & (byte < MOST_OPERATORS)
}

// Some byte is.
fn uses_beyond(n: u8, bytes: &[u8]) -> bool
    ensures { result ≡ any_holds (beyond (operators n [])) bytes.now }
{
    bytes::any(bytes, |c| is_beyond(n, c))
}

// Some byte is an operator of the set.
fn uses_set(set: u32, bytes: &[u8]) -> bool
    ensures { result ≡ any_holds (λ c. ltb c most_operators && bit_of set c) bytes.now }
{
    bytes::any(bytes, |c| sheet::is_in(set, c))
}

// The place holds one or the other. Most sheets change no kind.
#[tactic(auto, using(crate::proofs::UseWays::place_uses_ways))]
fn place_uses(n: u8, set: u32, places: &Store, place: Place) -> bool
    ensures { result ≡ uses_by n set (held (records_in places.now) place.at) }
{
    let bytes = places.held_record(place.at);
    if uses_beyond(n, bytes) {
        return true;
    }
    if set == 0 {
        return false;
    }
    uses_set(set, bytes)
}

// Some place does.
#[tactic(auto, using(crate::proofs::UseWays::any_uses_ways))]
fn any_uses(n: u8, set: u32, places: &Store) -> bool
    ensures { result ≡ some_use n set (records_in places.now) }
{
    for at in 0..PLACE_COUNT {
        if place_uses(n, set, places, Place::new(at)) {
            return true;
        }
    }
    false
}

// The same of the operators that the new sheet has not, and of those whose kind it changes.
#[tactic(auto, using(crate::proofs::UseWays::in_use_ways))]
pub fn in_use(old: &Sheet, new: &Sheet, places: &Store) -> bool
    ensures { result ≡ (in_use_check (operators_of old.now) (operators_of new.now) (held (records_in places.now))).0 }
{
    any_uses(new.operator_count(), old.kind_changes(new), places)
}
