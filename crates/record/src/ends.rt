// Where the tree at a place of a record ends.
ghost use Rattle.std.specs.Prelude.{◌<◌, ◌≤◌, length, IfSome};
ghost use Rattle.sheet.specs.Layout.{operators_of};
ghost use Rattle.record.specs.Front.{front};
ghost use Rattle.record.specs.Reach.{Reaches};

use crate::Node;
use crate::walks::Record;

impl Record<'_> {
    // The place after the tree; none where no tree stands. A reading on the left, as in most trees, takes no call. A left operand
    // leaves a byte for the right one: so the walk goes no deeper into any bytes than into a tree of their length.
    #[tactic(auto, using(crate::proofs::Reaching::end_at_ways))]
    pub fn end_at(&self, size: usize, from: usize) -> Option<usize>
        requires { size ≤ length self.now.bytes.now }
        ensures reaches { Reaches (operators_of self.now.sheet.now) (front size self.now.bytes.now) from result }
        ensures onward { IfSome result (λ to. from < to) }
    {
        let mut at = from;
        loop {
            match self.node(size, at)? {
                Node::Reading(_) => {
                    return Some(at + 1);
                }
                Node::Bracket | Node::Prefix(_) => {
                    at += 1;
                }
                Node::Operator(_) => {
                    at = match self.node(size - 1, at + 1) {
                        Some(Node::Reading(_)) => at + 2,
                        _ => self.end_at(size - 1, at + 1)?,
                    };
                }
            }
        }
    }
}
