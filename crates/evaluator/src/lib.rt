// Conditions worked out: the value of the tree that a place of the panel holds, from lent meanings of its operators and lent readings.
// A library above the panel's: nothing of the panel rests on it.
#![tactic(auto)]

ghost use Rattle.std.specs.Prelude.{◌≡◌};
ghost use Rattle.places.specs.Store.{records_in};
ghost use Rattle.evaluator.specs.Evaluation.{EvaluatesOn};
ghost use Rattle.evaluator.specs.Outcome.{evaluation_of};

use expression::refusal::{self, Refusal};
use lent::Lent;
use places::{Place, Store};
use sheet::Sheet;

mod checks;
mod lent;
mod walk;

// The number of an evaluation, and the value of the tree; 0 after a refusal.
#[repr(C)]
#[derive(Drop)]
pub struct Evaluation {
    pub number: u8,
    pub value: i32,
}

impl From<Result<i32, Refusal>> for Evaluation {
    ghost from_gives = { λ outcome answer. answer ≡ evaluation_of outcome };

    fn from(outcome: Result<i32, Refusal>) -> Evaluation {
        let number = refusal::number(&outcome);
        Evaluation {
            number: number,
            value: outcome.unwrap_or(0),
        }
    }
}

// The value of the tree that the place holds. The meaning of operator o is byte o of `meanings`; reading 80 is the first of `readings`.
#[tactic(auto, using(crate::proofs::Evaluating::evaluate_ways))]
pub fn evaluate(
    sheet: &Sheet,
    places: &Store,
    place: u32,
    meanings: &[u8],
    readings: &[i32],
) -> Result<i32, Refusal>
    ensures { EvaluatesOn meanings.now readings.now sheet.now (records_in places.now) place (evaluation_of result) }
{
    let place = Place::try_from(place)?;
    let bytes = places.held_record(place.at);
    if bytes.is_empty() {
        return Err(Refusal::Empty);
    }
    let lent = Lent {
        bytes: bytes,
        meanings: meanings,
        readings: readings,
    };
    lent.check(sheet)?;
    Ok(lent.value())
}
