// Witnesses in bytes. Each has a shape for infix operators; where the first operator is a prefix one, the operand before it is left out, and the
// others move up.
ghost use Rattle.std.specs.Prelude.{◌≡◌, ◌+◌, ◌≤◌, ◌<◌, ◌++◌, length};
ghost use Rattle.expression.specs.Limits.{most_operators};
ghost use Rattle.disambiguation.specs.Witness.{sound, no_tree, two_trees, first_over_pair, last_over_pair, first_over_triple, last_over_triple, witness_bytes};
ghost use Rattle.witness.specs.Explaining.{most_explained};
ghost use Rattle.witness.specs.Shapes.{fitted};

use crate::text::Text;
use expression::refusal::{ACCEPTED, Refusal};
use expression::token::FIRST_READING;

// The first byte of a witness: the number of the verdict.
const DEAD: u8 = Refusal::Dead as u8;

const DOUBLE: u8 = Refusal::Double as u8;

// The readings of a row of infix operators.
const X: u8 = FIRST_READING;

const Y: u8 = X + 1;

const Z: u8 = X + 2;

const W: u8 = X + 3;

// Nothing is wrong.
pub fn sound() -> Text
    ensures { result ≡ witness_bytes sound }
{
    let mut text = Text::new();
    text.push(ACCEPTED);
    text
}

// A row, and the records of two trees behind it.
fn two(prefix: bool, row: &[u8], one: &[u8], other: &[u8]) -> Text
    requires { length row.now + length one.now + length other.now ≤ most_explained }
    ensures { result ≡ fitted prefix row.now ++ fitted prefix one.now ++ fitted prefix other.now }
{
    let mut text = Text::new();
    text.fit(prefix, row);
    text.fit(prefix, one);
    text.fit(prefix, other);
    text
}

// The row of two operators; the first may be a prefix operator.
#[derive(Clone, Copy)]
pub struct Pair {
    pub prefix: bool,
    pub a: u8,
    pub b: u8,
    ghost few: { (a < most_operators) × (b < most_operators) },
}

impl Pair {
    // It has no tree.
    pub fn no_tree(self) -> Text
        ensures { result ≡ witness_bytes (no_tree (first_over_pair self.prefix self.a self.b)) }
    {
        let mut text = Text::new();
        text.fit(self.prefix, &[DEAD, X, self.a, Y, self.b, Z]);
        text
    }

    // It has two: a on top, and b on top.
    pub fn two_trees(self) -> Text
        ensures { result ≡ witness_bytes (two_trees (first_over_pair self.prefix self.a self.b) (last_over_pair self.prefix self.a self.b)) }
    {
        let Pair { prefix, a, b } = self;
        let row = [DOUBLE, X, a, Y, b, Z];
        let of_a = [a, X, b, Y, Z];
        let of_b = [b, a, X, Y, Z];
        two(prefix, &row, &of_a, &of_b)
    }
}

// The row of three operators, which are not level.
#[derive(Clone, Copy)]
pub struct Triple {
    pub prefix: bool,
    pub closes: bool,
    pub a: u8,
    pub b: u8,
    pub c: u8,
    ghost few: { (a < most_operators) × (b < most_operators) × (c < most_operators) },
}

impl Triple {
    // It has two trees: a on top, and c on top. Either a closes before b, and b before c, or neither does.
    pub fn two_trees(self) -> Text
        ensures { result ≡ witness_bytes (two_trees (first_over_triple self.prefix self.a self.closes self.b self.c)
            (last_over_triple self.prefix self.a self.closes self.b self.c)) }
    {
        let Triple {
            prefix,
            closes,
            a,
            b,
            c,
        } = self;
        let row = [DOUBLE, X, a, Y, b, Z, c, W];
        if closes {
            two(prefix, &row, &[a, X, c, b, Y, Z, W], &[c, b, a, X, Y, Z, W])
        } else {
            two(prefix, &row, &[a, X, b, Y, c, Z, W], &[c, a, X, b, Y, Z, W])
        }
    }
}
