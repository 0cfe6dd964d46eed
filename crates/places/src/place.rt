// A number taken for one of the sixteen places.
ghost use Rattle.std.specs.Prelude.{◌≡◌, ◌<◌};
ghost use Rattle.run.specs.Places.{place_count};

use crate::limits::PLACE_COUNT;
use expression::refusal::Refusal;

#[derive(Clone, Copy, Debug, PartialEq, Eq)]
pub struct Place {
    pub at: u8,
    ghost below: { at < place_count },
}

impl Place {
    pub fn new(at: u8) -> Self
        requires { at < place_count }
        ensures { result.at ≡ at }
    {
        Place { at }
    }
}

impl TryFrom<u32> for Place {
    type Error = Refusal;

    ghost use Rattle.places.specs.Place.{Taken};

    ghost try_from_gives = { Taken };

    fn try_from(number: u32) -> Result<Self, Refusal> {
        if number < PLACE_COUNT as u32 {
            Ok(Place::new(number as u8))
        } else {
            Err(Refusal::Place)
        }
    }
}
