// Where the operands of a record's top node stand.
ghost use Rattle.std.specs.Prelude.{◌≡◌};
ghost use Rattle.sheet.specs.Layout.{operators_of};
ghost use Rattle.record.specs.Operands.{OperandAt, part_of};

use crate::Node;
use crate::walks::Record;
use expression::limits;
use sheet::Sheet;

// A part of a record, from a place up to another.
#[repr(C)]
#[derive(Drop)]
pub struct Part {
    pub from: usize,
    pub to: usize,
}

impl From<Option<(usize, usize)>> for Part {
    ghost from_gives = { λ place part. part ≡ part_of place };

    fn from(place: Option<(usize, usize)>) -> Part {
        let (from, to) = place.unwrap_or((0, 0));
        Part { from, to }
    }
}

impl Record<'_> {
    // From where to where the left or the right operand stands. A node's only tree counts as its left; none where there is none, and
    // where the record is refused: each operand is walked to its end once, and a stranger is no tree.
    #[tactic(auto, using(crate::proofs::OperandPlaces::operand_ways))]
    pub fn operand(&self, right: bool) -> Option<(usize, usize)>
        ensures { OperandAt (operators_of self.now.sheet.now) right self.now.bytes.now (part_of result) }
    {
        if limits::MOST_TOKENS < self.row_length() {
            return None;
        }
        let size = self.bytes.len();
        match self.node(size, 0)? {
            Node::Reading(_) => None,
            Node::Bracket | Node::Prefix(_) => {
                if right {
                    return None;
                }
                if self.end_at(size, 1)? != size {
                    return None;
                }
                Some((1, size))
            }
            Node::Operator(_) => {
                let mid = self.end_at(size - 1, 1)?;
                let end = self.end_at(size, mid)?;
                if end != size {
                    return None;
                }
                Some(if right { (mid, size) } else { (1, mid) })
            }
        }
    }
}

// The place of an operand in a record; none where there is none, too, where the bytes are too many.
#[tactic(auto, using(crate::proofs::OperandPlaces::operand_place_ways))]
pub fn operand_place(sheet: &Sheet, bytes: &[u8], right: bool) -> Option<(usize, usize)>
    ensures { OperandAt (operators_of sheet.now) right bytes.now (part_of result) }
{
    Record::new(sheet, bytes).ok()?.operand(right)
}

// The same as C gets it.
pub fn operand_part(sheet: &Sheet, bytes: &[u8], right: bool) -> Part
    ensures { OperandAt (operators_of sheet.now) right bytes.now result }
{
    operand_place(sheet, bytes, right).into()
}
