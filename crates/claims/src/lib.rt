// A row and the record that a tool claims for it: whether the record is that of the row's conflict-free tree. Nothing is built. The record
// is read, its row is compared with the one that came with it, and its conflicts are counted.
#![tactic(auto)]

ghost use Rattle.std.specs.Prelude.{◌≡◌};
ghost use Rattle.expression.specs.Outcome.{number_in};
ghost use Rattle.claims.specs.Claims.{beside_number_in, claim_number_in};

use expression::limits::MOST_TOKENS;
use expression::refusal::Refusal;
use sheet::Sheet;

// The record beside the row: refused by its own number, by 16 where its row is another, or by 17 where it has a conflict.
fn check_beside(sheet: &Sheet, row: &[u8], bytes: &[u8]) -> Result<(), Refusal>
    ensures { number_in result ≡ beside_number_in sheet.now row.now bytes.now }
{
    let mut own = [0u8; MOST_TOKENS];
    let length = record::yield_row(sheet, bytes, &mut own)?;
    if &own[0..length] != row {
        return Err(Refusal::OtherRow);
    }
    if record::judge(sheet, bytes)? != 0 {
        return Err(Refusal::Conflict);
    }
    Ok(())
}

// The pair: refused by the row's own number, or by that of the record beside it. A record that passes is of the row, which is then a row
// and need not be looked at by itself.
#[tactic(auto, using(crate::proofs::Claiming::pair_ways))]
pub fn check_claim(sheet: &Sheet, row: &[u8], bytes: &[u8]) -> Result<(), Refusal>
    ensures { number_in result ≡ claim_number_in sheet.now row.now bytes.now }
{
    let Err(beside) = check_beside(sheet, row, bytes) else {
        return Ok(());
    };
    parser::check_row(sheet, row)?;
    Err(beside)
}
