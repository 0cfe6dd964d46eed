// The evaluation for C and Rust. It takes numbers and addresses alone: a list is an address and a length.
#![tactic(auto)]

ghost use Rattle.places.specs.Store.{records_in};
ghost use Rattle.evaluator.specs.Evaluation.{EvaluatesOn};

use evaluator::Evaluation;
use places::Store;
use sheet::Sheet;

#[unsafe(no_mangle)]
pub extern "C" fn tihvomen_evaluate(
    sheet: &Sheet,
    places: &Store,
    place: u32,
    meanings: &[u8],
    readings: &[i32],
) -> Evaluation
    ensures { EvaluatesOn meanings.now readings.now sheet.now (records_in places.now) place result }
{
    evaluator::evaluate(sheet, places, place, meanings, readings).into()
}
