// Strangers in a row: bytes that stand in none.
ghost use Rattle.std.specs.Prelude.{◌≡◌, []};
ghost use Rattle.expression.specs.Token.{operators, class};
ghost use Rattle.expression.specs.Checks.{strange_in_row};
ghost use Rattle.sheet.specs.Layout.{operators_of};
ghost use Rattle.parser.specs.Rows.{stranger_in_row};

use expression::{bytes, limits, token};
use sheet::Sheet;

// A byte without meaning, or an operator not below n; no branch tells.
#[tactic(auto, using(crate::proofs::RowWays::strange_ways))]
fn is_strange(n: u8, c: u8) -> bool
    ensures { result ≡ strange_in_row (class (operators n []) c) }
{
    let no_operator = (n <= c) & (c < limits::MOST_OPERATORS);
    let no_meaning = (token::CLOSING < c) & (c < token::FIRST_READING);
    no_operator | no_meaning
}

// Some token of the row is strange under a sheet's operators, whose count tells.
pub fn has_stranger(sheet: &Sheet, row: &[u8]) -> bool
    ensures { result ≡ stranger_in_row (operators_of sheet.now) row.now }
{
    let n = sheet.operator_count();
    bytes::any(row, |c| is_strange(n, c))
}
