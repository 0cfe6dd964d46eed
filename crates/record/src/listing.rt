// How many trees bytes list one after the other, counted from their end: the bytes are read where they lie.
ghost use Rattle.std.specs.Prelude.{◌≡◌, ◌<◌, ◌↔◌, IsTrue};
ghost use Rattle.expression.specs.Limits.{most_record_bytes};
ghost use Rattle.expression.specs.Token.{class};
ghost use Rattle.sheet.specs.Layout.{operators_of};
ghost use Rattle.record.specs.Listing.{with_byte, listed_in, one_tree};

use crate::walks::Record;
use crate::{Node, node_of};
use sheet::Sheet;

// So many trees with one byte more before them; none where they list no trees then.
fn with_byte(sheet: &Sheet, listed: usize, byte: u8) -> Option<usize>
    requires { listed < most_record_bytes }
    ensures { result ≡ with_byte (class (operators_of sheet.now) byte) listed }
{
    match node_of(sheet, byte)? {
        Node::Reading(_) => Some(listed + 1),
        Node::Bracket | Node::Prefix(_) => {
            if listed < 1 {
                return None;
            }
            Some(listed)
        }
        Node::Operator(_) => {
            if listed < 2 {
                return None;
            }
            Some(listed - 1)
        }
    }
}

impl Record<'_> {
    // The count of trees that the bytes list; none where they list no trees.
    #[tactic(auto, using(crate::proofs::ListedTrees::trees_listed_ways))]
    pub fn trees_listed(&self) -> Option<usize>
        ensures { result ≡ listed_in (operators_of self.now.sheet.now) self.now.bytes.now }
    {
        let mut listed = 0;
        let mut rest = self.bytes;
        while let [front @ .., byte] = rest {
            listed = with_byte(self.sheet, listed, *byte)?;
            rest = front;
        }
        Some(listed)
    }

    // The bytes list exactly one tree.
    pub fn is_one_tree(&self) -> bool
        ensures { IsTrue result ↔ (listed_in (operators_of self.now.sheet.now) self.now.bytes.now ≡ one_tree) }
    {
        matches!(self.trees_listed(), Some(1))
    }
}
