// Binding powers of the infix operators: which of them an operator lies above is a set of bits, and its ones are counted.
ghost use Rattle.std.specs.Prelude.{◌≡◌, ◌<◌};
ghost use Rattle.expression.specs.Limits.{most_operators};
ghost use Rattle.disambiguation.specs.Powers.{below};
ghost use Rattle.sheet.specs.Layout.{operators_of};
ghost use Rattle.relation.specs.Relation.{closes_in};
ghost use Rattle.relation.specs.Words.{SetOf};
ghost use Rattle.sheet.specs.BindingPowers.{infix_in, capped, closers_of, left_by, given, given_in, powers_in, answered};

use crate::Sheet;
use crate::layout::PREFIX_WORD;
use expression::limits::MOST_OPERATORS;
use expression::refusal;
use expression::refusal::Refusal;
use relation::count::Count;
use relation::{scan, words};

// The left and the right power of an operator.
#[derive(Clone, Copy)]
pub struct Binding {
    pub left: u8,
    pub right: u8,
}

// The number of the call, and both powers; they are 0 after a refusal.
#[repr(C)]
#[derive(Drop)]
pub struct Powers {
    pub number: u8,
    pub left: u8,
    pub right: u8,
}

impl From<Result<Binding, Refusal>> for Powers {
    ghost from_gives = { λ outcome powers. powers ≡ answered outcome };

    fn from(outcome: Result<Binding, Refusal>) -> Powers {
        match outcome {
            Ok(binding) => Powers {
                number: refusal::ACCEPTED,
                left: binding.left,
                right: binding.right,
            },
            Err(refusal) => Powers {
                number: refusal as u8,
                left: 0,
                right: 0,
            },
        }
    }
}

// The left power of an operator that lies above the set.
#[tactic(auto, using(crate::proofs::PowerWays::left_ways))]
fn left_power(set: u32) -> u8
    ensures { result ≡ left_by set }
{
    2 + 2 * (u32::count_ones(set) as u8)
}

impl Sheet {
    // The count of operators, capped at 32.
    #[tactic(auto, using(crate::proofs::PowerWays::capped_ways))]
    fn capped_count(&self) -> Count
        ensures { result.n ≡ capped (operators_of self.now).count }
    {
        let n = self.operator_count();
        if MOST_OPERATORS < n {
            return Count::MOST;
        }
        Count { n: n as usize }
    }

    // The set of the infix operators.
    #[tactic(auto, using(crate::proofs::PowerWays::infixes_ways))]
    fn infixes(&self) -> u32
        ensures { SetOf (infix_in self.now) result }
    {
        words::outside(self.capped_count(), self.words[PREFIX_WORD])
    }

    // The set of the operators that close before a.
    fn closers(&self, a: u8) -> u32
        ensures { result ≡ closers_of self.now a }
    {
        scan::set(Count::MOST, |c| self.closes_before(c as u8, a))
    }

    // The set of the infix operators that a lies above: it closes before them, and they do not close before it.
    #[tactic(auto, using(crate::proofs::PowerWays::below_ways))]
    fn set_below(&self, a: u8) -> u32
        requires { a < most_operators }
        ensures { SetOf (below (operators_of self.now) (closes_in self.now) a) result }
    {
        self.infixes() & words::without(self.words[a as usize], self.closers(a))
    }

    // The powers of an infix operator. The two are the same where it closes before itself.
    #[tactic(auto, using(crate::proofs::PowerWays::both_ways))]
    fn powers_of_infix(&self, a: u8) -> Binding
        requires { a < most_operators }
        ensures { given result.left result.right ≡ given_in self.now a }
    {
        let left = left_power(self.set_below(a));
        let right = if self.closes_before(a, a) {
            left
        } else {
            left - 1
        };
        Binding { left, right }
    }

    // The powers of an operator; 3 where it is no infix operator.
    #[tactic(auto, using(crate::proofs::PowerWays::powers_ways))]
    pub fn powers_of(&self, operator: u32) -> Result<Binding, Refusal>
        ensures { answered result ≡ powers_in self.now operator }
    {
        if MOST_OPERATORS as u32 <= operator {
            return Err(Refusal::Stranger);
        }
        let a = operator as u8;
        if !words::has(self.infixes(), a as usize) {
            return Err(Refusal::Stranger);
        }
        Ok(self.powers_of_infix(a))
    }
}
