// Rows into trees: the checks of a row, building it into the record of its tree, and repairing a record.
#![tactic(auto)]

ghost use Rattle.std.specs.Prelude.{◌≡◌, ◌≤◌, length};
ghost use Rattle.expression.specs.Limits.{most_tokens};
ghost use Rattle.expression.specs.Checks.{row_number};
ghost use Rattle.expression.specs.Outcome.{number_in};
ghost use Rattle.sheet.specs.Layout.{operators_of};
ghost use Rattle.record.specs.Outcome.{answer_of};
ghost use Rattle.parser.specs.Answers.{AnswersBuild, AnswersRepair};

use expression::limits::MOST_TOKENS;
use expression::refusal::Refusal;
use sheet::Sheet;

mod build;
mod note;
mod row;
mod strangers;

// A row under the sheet's operators: 1, 3 or 6 where it is refused.
pub fn check_row(sheet: &Sheet, tokens: &[u8]) -> Result<(), Refusal>
    ensures { number_in result ≡ row_number (operators_of sheet.now) tokens.now }
{
    row::check(sheet, tokens)
}

// The record of the row's tree, at the front of `out`, and its length. After a refusal `out` is as it was.
#[tactic(auto, using(crate::proofs::AnswerWays::build_row_ways))]
pub fn build_row(sheet: &Sheet, tokens: &[u8], out: &mut [u8]) -> Result<usize, Refusal>
    ensures { AnswersBuild sheet.now tokens.now out.old out.new (answer_of result) }
{
    row::check(sheet, tokens)?;
    let length = row::record_bytes(tokens);
    if out.len() < length {
        return Err(Refusal::Short);
    }
    build::build_into(sheet, tokens, &mut out[0..length]);
    Ok(length)
}

// The same for a record: its row is laid into the lent buffer, and built.
fn repair_by(sheet: &Sheet, bytes: &[u8], row: &mut [u8], out: &mut [u8]) -> Result<usize, Refusal>
    requires { most_tokens ≤ length row.old }
    ensures { AnswersRepair sheet.now bytes.now out.old out.new (answer_of result) }
{
    let tokens = record::yield_row(sheet, bytes, row)?;
    let length = bytes.len();
    if out.len() < length {
        return Err(Refusal::Short);
    }
    build::build_into(sheet, &row[0..tokens], &mut out[0..length]);
    Ok(length)
}

// The record of the conflict-free tree of the record's row, at the front of `out`, and its length. After a refusal `out` is as it was.
pub fn repair_record(sheet: &Sheet, bytes: &[u8], out: &mut [u8]) -> Result<usize, Refusal>
    ensures { AnswersRepair sheet.now bytes.now out.old out.new (answer_of result) }
{
    let mut row = [0u8; MOST_TOKENS];
    repair_by(sheet, bytes, &mut row, out)
}
