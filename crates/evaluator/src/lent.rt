// A record with what is lent for its evaluation: its number.
ghost use Rattle.std.specs.Prelude.{◌≡◌};
ghost use Rattle.expression.specs.Outcome.{number_in};
ghost use Rattle.sheet.specs.Layout.{operators_of};
ghost use Rattle.evaluator.specs.Evaluation.{number_of};

use crate::checks;
use expression::refusal::Refusal;
use sheet::Sheet;

// The bytes of a record, the meanings of operators, and the values of readings.
#[derive(Clone, Copy)]
pub struct Lent<'a> {
    pub bytes: &'a [u8],
    pub meanings: &'a [u8],
    pub readings: &'a [i32],
}

impl Lent<'_> {
    // The record's own refusal, then one for an operator without a meaning, then one for a reading without a value.
    #[tactic(auto, using(crate::proofs::Evaluating::number_of_ways))]
    pub fn check(&self, sheet: &Sheet) -> Result<(), Refusal>
        ensures { number_in result ≡ number_of self.now.meanings.now self.now.readings.now (operators_of sheet.now) self.now.bytes.now }
    {
        record::check_record(sheet, self.bytes)?;
        if checks::lacks_meaning(sheet, self.meanings, self.bytes) {
            return Err(Refusal::NoMeaning);
        }
        if checks::lacks_reading(self.readings.len(), self.bytes) {
            return Err(Refusal::NoReading);
        }
        Ok(())
    }
}
