// The text of a witness, which is at most 22 bytes long.
ghost use Rattle.std.specs.Prelude.{◌≡◌, ◌+◌, ◌≤◌, ◌<◌, ℕ, List, [], ◌∷◌, ◌++◌, length, take};
ghost use Rattle.witness.specs.Explaining.{most_explained};
ghost use Rattle.witness.specs.Shapes.{moved, fitted};

use crate::limits::MOST_EXPLAINED;
use expression::token::FIRST_READING;
use std::marker::Model;

#[derive(Drop)]
pub struct Text {
    bytes: [u8; MOST_EXPLAINED],
    filled: usize,
}

impl Model for Text {
    ghost Value = { List ℕ };

    ghost view = { λ text. take text.filled text.bytes };

    ghost invariant = { λ text. text.filled ≤ most_explained };
}

// The byte in its place: an operand behind a prefix operator moves up by one.
#[tactic(auto, using(crate::proofs::ShapeWays::moved_ways))]
fn moved(prefix: bool, c: u8) -> u8
    ensures { result ≡ moved prefix c }
{
    if prefix & (FIRST_READING < c) {
        c - 1
    } else {
        c
    }
}

impl Text {
    pub fn new() -> Self
        ensures { result ≡ [] }
    {
        Text {
            bytes: [0; MOST_EXPLAINED],
            filled: 0,
        }
    }

    pub fn bytes(&self) -> &[u8]
        ensures { result.now ≡ self.now }
    {
        &self.bytes[..self.filled]
    }

    pub fn push(&mut self, byte: u8)
        requires { length self.old < most_explained }
        ensures { self.new ≡ self.old ++ (byte ∷ []) }
    {
        self.bytes[self.filled] = byte;
        self.filled += 1;
    }

    // Puts a byte of a shape behind the others, unless it is the operand before a prefix operator.
    #[tactic(auto, using(crate::proofs::ShapeWays::put_ways))]
    fn put(&mut self, prefix: bool, c: u8)
        requires { length self.old < most_explained }
        ensures { self.new ≡ self.old ++ fitted prefix (c ∷ []) }
    {
        if prefix & (c == FIRST_READING) {
            return;
        }
        self.push(moved(prefix, c));
    }

    // Puts the shape, as it fits, behind the others.
    #[tactic(auto, using(crate::proofs::ShapeWays::fit_ways))]
    pub fn fit(&mut self, prefix: bool, shape: &[u8])
        requires { length self.old + length shape.now ≤ most_explained }
        ensures { self.new ≡ self.old ++ fitted prefix shape.now }
    {
        for c in shape {
            self.put(prefix, *c);
        }
    }
}
