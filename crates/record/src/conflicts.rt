// The conflict count of the tree at a place of a record, under a sheet.
ghost use Rattle.std.specs.Prelude.{◌≡◌, ◌<◌, ◌≤◌, length, IfSome};
ghost use Rattle.record.specs.Front.{front};
ghost use Rattle.record.specs.Counts.{sees_edge, shows_top, Counts};

use crate::Node;
use crate::walks::Record;
use sheet::Sheet;

// The operators around a tree: the one above, whose right or only operand the tree is, and the seer, the infix operator right of
// the tree whose left operand it ends, so that it sees its right edge.
#[derive(Clone, Copy)]
pub struct Around {
    pub above: Option<u8>,
    pub seer: Option<u8>,
}

impl Around {
    // None, as around a whole record and in a bracket.
    pub const NOTHING: Around = Around {
        above: None,
        seer: None,
    };

    // The seer excludes prefix operator p on the edge.
    pub fn sees_edge(self, sheet: &Sheet, p: u8) -> bool
        ensures { result ≡ sees_edge sheet.now self.seer p }
    {
        match self.seer {
            Some(seer) => !sheet.closes_before(p, seer),
            None => false,
        }
    }

    // Infix operator o on top of the tree shows a conflict with the operator above, and where there is none with the seer.
    pub fn shows_top(self, sheet: &Sheet, o: u8) -> bool
        ensures { result ≡ shows_top sheet.now self.above self.seer o }
    {
        match self.above {
            Some(above) => sheet.closes_before(above, o),
            None => self.sees_edge(sheet, o),
        }
    }
}

impl Record<'_> {
    // The place after the tree, and what it shows added to the count, at most one for each byte; none where no tree stands. Each
    // node counts what it shows with those around it. A reading on the left, as in most trees, takes no call. A left operand leaves
    // a byte for the right one.
    #[tactic(auto, using(crate::proofs::Counting::count_at_ways))]
    pub fn count_at(
        &self,
        size: usize,
        from: usize,
        outside: Around,
        count: &mut u8,
    ) -> Option<usize>
        requires within { size ≤ length self.now.bytes.now }
        requires few { count.old ≤ from }
        ensures counts { Counts self.now.sheet.now (front size self.now.bytes.now) from outside.above outside.seer count.old result count.new }
        ensures onward { IfSome result (λ to. (from < to) × (count.new ≤ to)) }
    {
        let mut at = from;
        let mut around = outside;
        loop {
            match self.node(size, at)? {
                Node::Reading(_) => {
                    return Some(at + 1);
                }
                Node::Bracket => {
                    around = Around::NOTHING;
                    at += 1;
                }
                Node::Prefix(p) => {
                    *count += u8::from(around.sees_edge(self.sheet, p));
                    around.above = Some(p);
                    at += 1;
                }
                Node::Operator(o) => {
                    *count += u8::from(around.shows_top(self.sheet, o));
                    around.above = Some(o);
                    at = match self.node(size - 1, at + 1) {
                        Some(Node::Reading(_)) => at + 2,
                        _ => {
                            let left = Around {
                                above: None,
                                seer: Some(o),
                            };
                            self.count_at(size - 1, at + 1, left, count)?
                        }
                    };
                }
            }
        }
    }
}
