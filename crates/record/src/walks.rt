// A record read under a sheet, for the walks through it: its first `size` bytes, from a place on.
ghost use Rattle.std.specs.Prelude.{◌≡◌, ◌≢◌, ◌<◌, ◌≤◌, length, IfSome, MatchResult};
ghost use Rattle.expression.specs.Limits.{most_record_bytes};
ghost use Rattle.expression.specs.declared.refusal.Refusal.TheVariants.{Oversize};
ghost use Rattle.expression.specs.Refusal.{accepted};
ghost use Rattle.expression.specs.Outcome.{number_of};
ghost use Rattle.expression.specs.Checks.{record_number};
ghost use Rattle.sheet.specs.Layout.{operators_of};
ghost use Rattle.record.specs.Front.{front};
ghost use Rattle.record.specs.Node.{node_at};

use crate::{Node, node_at};
use expression::limits;
use expression::refusal::Refusal;
use sheet::Sheet;

#[derive(Clone, Copy)]
pub struct Record<'a> {
    pub sheet: &'a Sheet,
    pub bytes: &'a [u8],
    ghost few: { length bytes.now ≤ most_record_bytes },
}

impl<'a> Record<'a> {
    // Refused where there are too many bytes.
    pub fn new(sheet: &'a Sheet, bytes: &'a [u8]) -> Result<Self, Refusal>
        ensures { MatchResult result (λ made. (made.sheet.now ≡ sheet.now) × (made.bytes.now ≡ bytes.now))
            (λ r. (r ≡ Oversize) × (most_record_bytes < length bytes.now)) }
    {
        if limits::MOST_RECORD_BYTES < bytes.len() {
            return Err(Refusal::Oversize);
        }
        Ok(Record { sheet, bytes })
    }

    // The node at a place of the first `size` bytes.
    #[tactic(auto, unfolding(crate::specs::Front::front))]
    pub fn node(&self, size: usize, at: usize) -> Option<Node>
        requires { size ≤ length self.now.bytes.now }
        ensures node { result ≡ node_at (operators_of self.now.sheet.now) (front size self.now.bytes.now) at }
        ensures inside { IfSome result (λ x. at < size) }
    {
        node_at(self.sheet, &self.bytes[..size], at)
    }

    // Why the record is refused: a stranger, no tree, or a row that is too long.
    #[tactic(auto, using(crate::proofs::Numbering::flaw_ways))]
    pub fn flaw(&self) -> Refusal
        requires { record_number (operators_of self.now.sheet.now) self.now.bytes.now ≢ accepted }
        ensures { number_of result ≡ record_number (operators_of self.now.sheet.now) self.now.bytes.now }
    {
        if self.has_stranger() {
            return Refusal::Stranger;
        }
        if !self.is_one_tree() {
            return Refusal::NoTree;
        }
        Refusal::Oversize
    }
}
