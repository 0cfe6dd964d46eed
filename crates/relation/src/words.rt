// A word as a set of operators: bit c is set where operator c is in the set. Two sets are compared below n alone, by a mask.
// A set is the bare word, since the words of a lent sheet come from C as they are; a type of its own would be put round each of them and taken off again.
ghost use Rattle.std.specs.Prelude.{◌≡◌, ◌≤◌, ◌<◌, ◌^◌, ◌-◌};
ghost use Rattle.expression.specs.Limits.{most_operators};
ghost use Rattle.disambiguation.specs.Verdict.{within};
ghost use Rattle.relation.specs.Relation.{bit_of};
ghost use Rattle.relation.specs.Tests.{none_in_both, each_in_one};
ghost use Rattle.relation.specs.Chaining.{joined};
ghost use Rattle.relation.specs.Words.{with_bit, without, SetOf, outside_of};

use crate::count::Count;

// The set of all below n.
#[tactic(auto, using(crate::proofs::WordWays::mask_ways))]
fn mask(count: Count) -> u32
    ensures { result ≡ 2 ^ count.n - 1 }
{
    ((1u64 << count.n) - 1) as u32
}

// Operator c is in the set.
#[tactic(auto, using(crate::proofs::WordWays::word_ways))]
pub fn has(x: u32, c: usize) -> bool
    requires { c < most_operators }
    ensures { result ≡ bit_of x c }
{
    (x >> c) & 1 == 1
}

// None is in both sets.
#[tactic(auto, using(crate::proofs::WordWays::word_ways))]
pub fn apart(count: Count, x: u32, y: u32) -> bool
    ensures { result ≡ none_in_both count.n (bit_of x) (bit_of y) }
{
    x & y & mask(count) == 0
}

// Each is in one of the sets at least.
#[tactic(auto, using(crate::proofs::WordWays::word_ways))]
pub fn cover(count: Count, x: u32, y: u32) -> bool
    ensures { result ≡ each_in_one count.n (bit_of x) (bit_of y) }
{
    !(x | y) & mask(count) == 0
}

// Each of the first set is in the second.
#[tactic(auto, using(crate::proofs::WordWays::word_ways))]
pub fn inside(count: Count, x: u32, y: u32) -> bool
    ensures { result ≡ within count.n (bit_of x) (bit_of y) }
{
    x & !y & mask(count) == 0
}

// The set, with operator c put in if told so.
#[tactic(auto, using(crate::proofs::WordWays::with_ways))]
pub fn with(x: u32, c: usize, told: bool) -> u32
    requires { c < most_operators }
    ensures { result ≡ with_bit x c told }
{
    if told { x | (1 << c) } else { x }
}

// The first set without the second.
#[tactic(auto, using(crate::proofs::WordWays::word_ways))]
pub fn without(x: u32, y: u32) -> u32
    ensures { result ≡ without x y }
{
    x & !y
}

// The first set, with the second put in if c is in the first.
#[tactic(auto, using(crate::proofs::WordWays::joined_ways))]
pub fn joined(x: u32, c: usize, y: u32) -> u32
    requires { c < most_operators }
    ensures { result ≡ joined x c y }
{
    if has(x, c) { x | y } else { x }
}

// All below n that are not in the set.
#[tactic(auto, using(crate::proofs::WordWays::outside_ways))]
pub fn outside(count: Count, x: u32) -> u32
    ensures { SetOf (outside_of count.n x) result }
{
    mask(count) & !x
}
