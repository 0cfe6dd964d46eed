// The row of the tree at a place of a record.
ghost use Rattle.std.specs.Prelude.{◌<◌, ◌≤◌, length, IfSome};
ghost use Rattle.sheet.specs.Layout.{operators_of};
ghost use Rattle.record.specs.Front.{front};
ghost use Rattle.record.specs.Rows.{Writes};

use crate::Node;
use crate::tokens::Tokens;
use crate::walks::Record;
use expression::token;

impl Record<'_> {
    // The place after the tree, its row written after the tokens that are there; none where no tree stands or its row has no room.
    // A reading on the left, as in most trees, takes no call. A left operand leaves a byte for the right one.
    #[tactic(auto, using(crate::proofs::Writing::write_row_ways))]
    pub fn write_row(&self, size: usize, from: usize, row: &mut Tokens) -> Option<usize>
        requires { size ≤ length self.now.bytes.now }
        ensures writes { Writes (operators_of self.now.sheet.now) (front size self.now.bytes.now) from row.old row.new result }
        ensures onward { IfSome result (λ to. from < to) }
    {
        // A copy, so that the loop reads through no reference but the bytes'.
        let record = *self;
        let mut at = from;
        loop {
            match record.node(size, at)? {
                Node::Reading(a) => {
                    row.push(a)?;
                    return Some(at + 1);
                }
                Node::Bracket => {
                    row.push(token::OPENING)?;
                    let end = self.write_row(size, at + 1, row)?;
                    row.push(token::CLOSING)?;
                    return Some(end);
                }
                Node::Prefix(p) => {
                    row.push(p)?;
                    at += 1;
                }
                Node::Operator(o) => match record.node(size - 1, at + 1) {
                    Some(Node::Reading(a)) => {
                        row.push_two(a, o)?;
                        at += 2;
                    }
                    _ => {
                        at = self.write_row(size - 1, at + 1, row)?;
                        row.push(o)?;
                    }
                },
            }
        }
    }
}
