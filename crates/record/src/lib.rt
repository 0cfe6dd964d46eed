// Trees in records: read node by node, checked, yielded, judged; and the record of an operand.
#![tactic(auto)]

ghost use Rattle.std.specs.Prelude.{◌≡◌};
ghost use Rattle.expression.specs.Checks.{record_number};
ghost use Rattle.expression.specs.Operand.{operand_part};
ghost use Rattle.sheet.specs.Layout.{operators_of};
ghost use Rattle.record.specs.Node.{node_of, node_at};
ghost use Rattle.expression.specs.Token.{class};
ghost use Rattle.expression.specs.Outcome.{number_in};
ghost use Rattle.record.specs.Answers.{Yields, judgement};
ghost use Rattle.record.specs.Outcome.{answer_of, judgement_of};

use conflicts::Around;
use expression::refusal::{self, Refusal};
use expression::{bytes, limits, token};
use sheet::Sheet;
use tokens::Tokens;
use walks::Record;

mod checks;
pub mod conflicts;
mod ends;
mod listing;
pub mod operands;
mod rows;
pub mod tokens;
pub mod walks;

// What stands at a place of a record; an Operator is infix.
#[derive(Clone, Copy, Debug, PartialEq, Eq)]
pub enum Node {
    Reading(u8),
    Bracket,
    Operator(u8),
    Prefix(u8),
}

// The node of a byte, under the sheet's operators; none where it begins no tree. Readings come first, since half of a record's bytes are such.
#[tactic(auto, using(crate::proofs::Nodes::node_of_ways))]
pub fn node_of(sheet: &Sheet, byte: u8) -> Option<Node>
    ensures { result ≡ node_of (class (operators_of sheet.now) byte) byte }
{
    if token::FIRST_READING <= byte {
        return Some(Node::Reading(byte));
    }
    if byte < token::OPENING {
        if sheet.operator_count() <= byte {
            return None;
        }
        if sheet.is_prefix(byte) {
            return Some(Node::Prefix(byte));
        }
        return Some(Node::Operator(byte));
    }
    match byte {
        token::OPENING => Some(Node::Bracket),
        _ => None,
    }
}

// The node at a place; none past the end, too.
pub fn node_at(sheet: &Sheet, bytes: &[u8], at: usize) -> Option<Node>
    ensures { result ≡ node_at (operators_of sheet.now) bytes.now at }
{
    node_of(sheet, *bytes.get(at)?)
}

// A record under the sheet's operators: 1 for its bytes, 3, 7, 1 for its row.
#[tactic(auto, using(crate::proofs::Numbering::check_record_ways))]
pub fn check_record(sheet: &Sheet, bytes: &[u8]) -> Result<(), Refusal>
    ensures { number_in result ≡ record_number (operators_of sheet.now) bytes.now }
{
    let record = Record::new(sheet, bytes)?;
    if !record.is_one_tree() {
        return Err(record.flaw());
    }
    if limits::MOST_TOKENS < record.row_length() {
        return Err(Refusal::Oversize);
    }
    Ok(())
}

// The number of a call that writes an answer, and the answer's length; 0 after a refusal.
#[repr(C)]
#[derive(Drop)]
pub struct Answer {
    pub number: u8,
    pub length: usize,
}

impl From<Result<usize, Refusal>> for Answer {
    ghost from_gives = { λ outcome answer. answer ≡ answer_of outcome };

    fn from(outcome: Result<usize, Refusal>) -> Answer {
        let number = refusal::number(&outcome);
        Answer {
            number: number,
            length: outcome.unwrap_or(0),
        }
    }
}

// The row of the record's tree, written at the front of `out`, and its length. After a refusal `out` is as it was.
#[tactic(auto, using(crate::proofs::Yielding::yield_row_ways))]
pub fn yield_row(sheet: &Sheet, bytes: &[u8], out: &mut [u8]) -> Result<usize, Refusal>
    ensures { Yields (operators_of sheet.now) bytes.now out.old out.new (answer_of result) }
{
    let record = Record::new(sheet, bytes)?;
    // A row that is too long is not walked: so no walk goes deeper than an accepted record leads.
    if limits::MOST_TOKENS < record.row_length() {
        return Err(record.flaw());
    }
    let mut row = Tokens::new();
    if record.write_row(bytes.len(), 0, &mut row) != Some(bytes.len()) {
        return Err(record.flaw());
    }
    let tokens = row.as_slice();
    if out.len() < tokens.len() {
        return Err(Refusal::Short);
    }
    bytes::copy(tokens, out);
    Ok(tokens.len())
}

// The number of a record, and the conflict count of its tree; 0 after a refusal.
#[repr(C)]
#[derive(Drop)]
pub struct Judgement {
    pub number: u8,
    pub count: u8,
}

impl From<Result<u8, Refusal>> for Judgement {
    ghost from_gives = { λ outcome judgement. judgement ≡ judgement_of outcome };

    fn from(outcome: Result<u8, Refusal>) -> Judgement {
        let number = refusal::number(&outcome);
        Judgement {
            number: number,
            count: outcome.unwrap_or(0),
        }
    }
}

// The record judged under a sheet: the conflict count of its tree.
#[tactic(auto, using(crate::proofs::Judging::judge_ways))]
pub fn judge(sheet: &Sheet, bytes: &[u8]) -> Result<u8, Refusal>
    ensures { judgement_of result ≡ judgement sheet.now bytes.now }
{
    let record = Record::new(sheet, bytes)?;
    let mut count = 0;
    if record.count_at(bytes.len(), 0, Around::NOTHING, &mut count) != Some(bytes.len()) {
        return Err(record.flaw());
    }
    if limits::MOST_TOKENS < record.row_length() {
        return Err(Refusal::Oversize);
    }
    Ok(count)
}

// The record of the left or of the right operand of the top node: that part of `bytes`. Its number is that of `check_record`.
pub fn operand<'a, 'b>(sheet: &'a Sheet, bytes: &'b [u8], right: bool) -> &'b [u8]
    ensures { result.now ≡ operand_part (operators_of sheet.now) right bytes.now }
{
    match operands::operand_place(sheet, bytes, right) {
        Some((from, to)) => &bytes[from..to],
        None => &bytes[0..0],
    }
}
