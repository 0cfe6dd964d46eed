// The checks of a row: an expression reader and an operand reader that call each other.
ghost use Rattle.std.specs.Prelude.{◌≡◌, false, ◌≤◌, length, Some};
ghost use Rattle.expression.specs.Limits.{most_tokens};
ghost use Rattle.expression.specs.Token.{class};
ghost use Rattle.expression.specs.Checks.{strange_in_row, row_number, record_bytes};
ghost use Rattle.expression.specs.Outcome.{number_in};
ghost use Rattle.sheet.specs.Layout.{operators_of};
ghost use Rattle.parser.specs.Reading.{share};
ghost use Rattle.parser.specs.Rows.{token_of, token_at, Continues, ReadsOperand, ReadsExpression, stranger_in_row};

use crate::strangers;
use expression::refusal::Refusal;
use expression::{limits, token};
use sheet::Sheet;

// What a token of a row without strangers is under a sheet's operators; an Operator is infix.
#[derive(Clone, Copy, PartialEq, Eq)]
pub enum Token {
    Operator,
    Prefix,
    Opening,
    Closing,
    Reading,
}

// A row that is not too long and has no stranger, under a sheet's operators.
#[derive(Clone, Copy)]
pub struct Row<'a> {
    sheet: &'a Sheet,
    tokens: &'a [u8],
    ghost short: { length tokens.now ≤ most_tokens },
    ghost known: { stranger_in_row (operators_of sheet.now) tokens.now ≡ false },
}

impl<'a> Row<'a> {
    // The token that a byte is.
    #[tactic(auto, using(crate::proofs::TokenWays::token_of_ways))]
    fn token_of(&self, c: u8) -> Token
        requires { strange_in_row (class (operators_of self.now.sheet.now) c) ≡ false }
        ensures { Some result ≡ token_of (class (operators_of self.now.sheet.now) c) }
    {
        if token::FIRST_READING <= c {
            Token::Reading
        } else if c < limits::MOST_OPERATORS {
            if self.sheet.is_prefix(c) {
                Token::Prefix
            } else {
                Token::Operator
            }
        } else if c == token::OPENING {
            Token::Opening
        } else {
            Token::Closing
        }
    }

    // The token at a place; None past the row's end.
    #[tactic(auto, using(crate::proofs::TokenWays::token_at_ways))]
    fn token_at(&self, at: usize) -> Option<Token>
        ensures { result ≡ token_at (operators_of self.now.sheet.now) self.now.tokens.now at }
    {
        let c = self.tokens.get(at)?;
        Some(self.token_of(*c))
    }

    // The place after the readings from `at` on that an infix operator follows, each with its operator. Most of a row is passed so.
    fn pairs_end(&self, at: usize) -> usize
        requires { at ≤ length self.now.tokens.now }
        ensures { Continues (operators_of self.now.sheet.now) self.now.tokens.now at result }
    {
        // A copy, so that the loop reads through no reference but the tokens'. It goes on by pairs.
        let row = *self;
        let mut next = at;
        while next + 1 < row.tokens.len()
            && token::FIRST_READING <= row.tokens[next]
            && row.token_at(next + 1) == Some(Token::Operator)
        {
            next += 2;
        }
        next
    }

    // The place after the expression that starts at `at`: operands with an infix operator between each two. What follows a prefix operator
    // is an expression too, so it goes on behind that as behind an infix one.
    #[cycle(readers)]
    fn expression_end(&self, at: usize) -> Option<usize>
        requires { at ≤ length self.now.tokens.now }
        ensures { ReadsExpression (operators_of self.now.sheet.now) self.now.tokens.now at result }
    {
        let mut next = at;
        'parts: loop {
            let from = self.pairs_end(next);
            let Some(end) = self.operand_end(from) else {
                if self.token_at(from) != Some(Token::Prefix) {
                    return None;
                }
                next = from + 1;
                continue;
            };
            if self.token_at(end) != Some(Token::Operator) {
                return Some(end);
            }
            next = end + 1;
        }
    }

    // The place after the operand that starts at `at`, but for a prefix operator: a reading, or an expression in brackets.
    #[cycle(readers)]
    fn operand_end(&self, at: usize) -> Option<usize>
        ensures { ReadsOperand (operators_of self.now.sheet.now) self.now.tokens.now at result }
    {
        match self.token_at(at)? {
            Token::Reading => Some(at + 1),
            Token::Opening => {
                let next = self.expression_end(at + 1)?;
                if self.token_at(next) == Some(Token::Closing) {
                    Some(next + 1)
                } else {
                    None
                }
            }
            _ => None,
        }
    }
}

// A row under the sheet's operators: 1, 3 or 6 where it is refused.
#[tactic(auto, using(crate::proofs::RowWays::check_ways))]
pub fn check(sheet: &Sheet, tokens: &[u8]) -> Result<(), Refusal>
    ensures { number_in result ≡ row_number (operators_of sheet.now) tokens.now }
{
    if limits::MOST_TOKENS < tokens.len() {
        return Err(Refusal::Oversize);
    }
    if strangers::has_stranger(sheet, tokens) {
        return Err(Refusal::Stranger);
    }
    let row = Row { sheet, tokens };
    let Some(end) = row.expression_end(0) else {
        return Err(Refusal::NoRow);
    };
    if end < tokens.len() {
        return Err(Refusal::NoRow);
    }
    Ok(())
}

// A token's share of its row's record: a byte, but none for a closing bracket.
#[tactic(auto, unfolding(crate::specs::Reading::share))]
fn share_of(c: u8) -> u16
    ensures { result ≡ share c }
{
    if c == token::CLOSING { 0 } else { 1 }
}

// The bytes of the row's record. The loop has no branch, so that tokens can be counted side by side.
pub fn record_bytes(row: &[u8]) -> usize
    requires { length row.now ≤ most_tokens }
    ensures { result ≡ record_bytes row.now }
{
    let mut count: u16 = 0;
    for c in row {
        count += share_of(*c);
    }
    count as usize
}
