// The tests of a sheet's relations: safe, total, level. Each is n or n * n operations on words. Of two operators the right one is no prefix operator.
ghost use Rattle.std.specs.Prelude.{◌≡◌, ◌<◌, slice_index};
ghost use Rattle.expression.specs.Outcome.{number_in};
ghost use Rattle.disambiguation.specs.Verdict.{safe, total, level};
ghost use Rattle.relation.specs.Relations.{ops, closing, yielding};
ghost use Rattle.relation.specs.Words.{without};
ghost use Rattle.relation.specs.Tests.{level_pair, level_for, rules_number};

use crate::relations::Relations;
use crate::{scan, words};
use expression::refusal::Refusal;

impl Relations {
    // Of those that a closes before, the ones that may stand right of it: a set.
    pub fn comers(&self, a: usize) -> u32
        requires { a < self.now.count.n }
        ensures { result ≡ without (slice_index self.now.closes a) self.now.prefixes }
    {
        words::without(self.closes[a], self.prefixes)
    }

    // No pair is excluded both ways.
    fn is_safe(&self) -> bool
        ensures { result ≡ safe (ops self.now) (yielding self.now) (closing self.now) }
    {
        scan::all(self.count.n, |a| {
            words::apart(self.count, self.comers(a), self.yields[a])
        })
    }

    // Every pair is excluded one way at least.
    fn is_total(&self) -> bool
        ensures { result ≡ total (ops self.now) (yielding self.now) (closing self.now) }
    {
        scan::all(self.count.n, |a| {
            words::cover(self.count, self.closes[a] | self.prefixes, self.yields[a])
        })
    }

    // What one of a and b closes before, the other does too: b's if a closes before b, else a's. A prefix operator b stands right of none.
    #[tactic(auto, using(crate::proofs::Testing::pair_ways))]
    fn pair_is_level(&self, a: usize, b: usize) -> bool
        requires { (a < self.now.count.n) × (b < self.now.count.n) }
        ensures { result ≡ level_pair (ops self.now) (closing self.now) a b }
    {
        if words::has(self.prefixes, b) {
            return true;
        }
        if words::has(self.closes[a], b) {
            return words::inside(self.count, self.comers(b), self.closes[a]);
        }
        words::inside(self.count, self.comers(a), self.closes[b])
    }

    // The same for a and each b.
    fn row_is_level(&self, a: usize) -> bool
        requires { a < self.now.count.n }
        ensures { result ≡ level_for (ops self.now) (closing self.now) a }
    {
        scan::all(self.count.n, |b| self.pair_is_level(a, b))
    }

    // The same for each a.
    fn is_level(&self) -> bool
        ensures { result ≡ level (ops self.now) (closing self.now) }
    {
        scan::all(self.count.n, |a| self.row_is_level(a))
    }

    // Numbers 4 and 5.
    #[tactic(auto, using(crate::proofs::Testing::number_ways))]
    pub fn verdict(&self) -> Result<(), Refusal>
        ensures { number_in result ≡ rules_number (ops self.now) (yielding self.now) (closing self.now) }
    {
        if !self.is_safe() {
            return Err(Refusal::Dead);
        }
        if !self.is_total() || !self.is_level() {
            return Err(Refusal::Double);
        }
        Ok(())
    }
}
