// Which brackets a row needs: the shortest row that means the same as a record's row.
#![tactic(auto)]

ghost use Rattle.record.specs.Outcome.{answer_of};
ghost use Rattle.brackets.specs.Shortest.{AnswersShortest};

use expression::refusal::Refusal;
use expression::{bytes, limits};
use record::tokens::Tokens;
use sheet::Sheet;
use walk::{Marked, Side};

mod edges;
mod walk;

// The shortest row that means the same as the record's, at the front of `out`, and its length. After a refusal `out` is as it was.
#[tactic(auto, using(crate::proofs::Answering::shortest_ways))]
pub fn shortest_row(sheet: &Sheet, bytes: &[u8], out: &mut [u8]) -> Result<usize, Refusal>
    ensures { AnswersShortest sheet.now bytes.now out.old out.new (answer_of result) }
{
    let mut whole = [0u8; limits::MOST_RECORD_BYTES];
    let size = parser::repair_record(sheet, bytes, &mut whole)?;
    let mut marks = [false; limits::MOST_RECORD_BYTES];
    edges::mark_record(sheet, &whole, size, &mut marks);
    let marked = Marked {
        sheet,
        whole: &whole,
        marks: &marks,
    };
    let mut row = Tokens::new();
    marked.write_operand(0, None, Side::Right, &mut row);
    let tokens = row.as_slice();
    if out.len() < tokens.len() {
        return Err(Refusal::Short);
    }
    bytes::copy(tokens, out);
    Ok(tokens.len())
}
