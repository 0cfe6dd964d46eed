// The row of the tree at a place of a record, with just the brackets that it needs.
ghost use Rattle.std.specs.Prelude.{◌≡◌, ◌<◌, [], ◌∷◌, ◌++◌, length};
ghost use Rattle.expression.specs.Limits.{most_tokens};
ghost use Rattle.brackets.specs.Walk.{is_right, left_side, shows, StandsWithRoom, Shortens};

use crate::edges::{closes_under, top_at};
use expression::limits::MOST_RECORD_BYTES;
use expression::token;
use record::Node;
use record::conflicts::Around;
use record::tokens::Tokens;
use sheet::Sheet;

// How an operand stands under the operator above it.
#[derive(Clone, Copy, Debug, PartialEq, Eq)]
pub enum Side {
    // On its left.
    Left,
    // On its left, with a conflict shown on the right edge, as its mark says.
    Shown,
    // On its right or as its only one. A tree with no operator above it stands so too.
    Right,
}

// The side of a left operand with that mark.
fn left_side(shown: bool) -> Side
    ensures { result ≡ left_side shown }
{
    if shown { Side::Shown } else { Side::Left }
}

// One more token, for which there is room.
fn put(row: &mut Tokens, token: u8)
    requires { length row.old < most_tokens }
    ensures { row.new ≡ row.old ++ token ∷ [] }
{
    row.push(token).unwrap();
}

// An operand with operator o on top shows a conflict with the operator above it, on that side. Where there is none, it shows none.
#[tactic(auto, using(crate::proofs::Walking::shows_ways))]
fn shows(sheet: &Sheet, above: Option<u8>, side: Side, o: u8) -> bool
    ensures { result ≡ shows sheet.now above (is_right side) o }
{
    if side == Side::Right {
        return closes_under(sheet, above, o);
    }
    let left = Around {
        above: None,
        seer: above,
    };
    left.sees_edge(sheet, o)
}

// A record of a tree, at the front of as many bytes as a record has at most, and the marks that `edges` makes for it.
#[derive(Clone, Copy)]
pub struct Marked<'a> {
    pub sheet: &'a Sheet,
    pub whole: &'a [u8; MOST_RECORD_BYTES],
    pub marks: &'a [bool; MOST_RECORD_BYTES],
}

impl Marked<'_> {
    // Its row is written after the tokens that are there: an operand that shows a conflict with the operator above goes in brackets,
    // and no other does. The answer is the place after the tree. A reading on the left, as in most trees, takes no call.
    #[tactic(auto, using(crate::proofs::WalkingInfix::ways))]
    pub fn write_operand(
        &self,
        from: usize,
        outside: Option<u8>,
        given: Side,
        row: &mut Tokens,
    ) -> usize
        requires { StandsWithRoom self.now.sheet.now self.now.whole.now self.now.marks.now from outside given row.old }
        ensures { Shortens self.now.sheet.now self.now.whole.now from outside given row.old row.new result }
    {
        let mut at = from;
        let mut above = outside;
        let mut side = given;
        loop {
            if let Side::Shown = side {
                put(row, token::OPENING);
                let end = self.write_operand(at, None, Side::Right, row);
                put(row, token::CLOSING);
                return end;
            }
            match top_at(self.sheet, self.whole, at) {
                Node::Reading(a) => {
                    put(row, a);
                    return at + 1;
                }
                Node::Bracket => {
                    at += 1;
                }
                Node::Prefix(p) => {
                    put(row, p);
                    above = Some(p);
                    side = Side::Right;
                    at += 1;
                }
                Node::Operator(o) => {
                    if shows(self.sheet, above, side, o) {
                        put(row, token::OPENING);
                        let end = self.write_operand(at, None, Side::Right, row);
                        put(row, token::CLOSING);
                        return end;
                    }
                    at = match top_at(self.sheet, self.whole, at + 1) {
                        Node::Reading(a) => {
                            put(row, a);
                            at + 2
                        }
                        _ => self.write_operand(at + 1, Some(o), left_side(self.marks[at]), row),
                    };
                    put(row, o);
                    above = Some(o);
                    side = Side::Right;
                }
            }
        }
    }
}
