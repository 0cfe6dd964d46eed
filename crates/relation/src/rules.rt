// Rules in bytes, marked as written in two tables, with a word for each kind of rule and each operator.
ghost use Rattle.std.specs.Prelude.{◌≡◌, ◌<◌, is_err, IfErr};
ghost use Rattle.expression.specs.Limits.{most_operators};
ghost use Rattle.disambiguation.specs.Rules.{rule};
ghost use Rattle.relation.specs.Kinds.{code_of};
ghost use Rattle.relation.specs.Marking.{word_of, marked, Takes, Reads};

use crate::count::Count;
use crate::kind::RuleKind;
use expression::limits;
use expression::refusal::Refusal;

// The words of a table of marks; the first 32 are of no kind.
pub const MARK_WORDS: usize = (RuleKind::Right as usize + 1) * limits::MOST_OPERATORS as usize;

// In `ahead` bit b of a's word for a rule of a and b, in `back` bit a of b's word.
#[derive(Drop)]
pub struct Marks {
    pub ahead: [u32; MARK_WORDS],
    pub back: [u32; MARK_WORDS],
}

// The place of an operator's word for a kind.
pub fn word_of(kind: RuleKind, a: usize) -> usize
    requires { a < most_operators }
    ensures { result ≡ word_of (code_of kind) a }
{
    (kind as usize) * (limits::MOST_OPERATORS as usize) + a
}

// Puts the pair in for the kind.
#[tactic(auto, using(crate::proofs::Reading::mark_ways))]
fn mark(table: &mut [u32; MARK_WORDS], kind: RuleKind, a: u8, b: u8)
    requires { (a < most_operators) × (b < most_operators) }
    ensures { table.new ≡ marked table.old (code_of kind) a b }
{
    let at = word_of(kind, a as usize);
    table[at] |= 1 << b;
}

impl Marks {
    // Marks one rule; a strange one is not marked.
    #[tactic(auto, using(crate::proofs::Reading::take_ways))]
    fn take(&mut self, count: Count, kind: u8, first: u8, second: u8) -> Result<(), Refusal>
        ensures taken { Takes count.n (rule kind first second) self.old.ahead self.old.back self.new.ahead self.new.back (is_err result) }
        ensures why { IfErr result (λ e. e ≡ Refusal.Stranger) }
    {
        let kind = RuleKind::try_from(kind)?;
        if count.n <= first as usize || count.n <= second as usize {
            return Err(Refusal::Stranger);
        }
        mark(&mut self.ahead, kind, first, second);
        mark(&mut self.back, kind, second, first);
        Ok(())
    }

    // Marks the rules, up to the first strange one.
    #[tactic(auto, using(crate::proofs::Reading::read_ways))]
    pub fn read(&mut self, count: Count, rules: &[u8]) -> Result<(), Refusal>
        ensures read { Reads count.n rules.now self.old.ahead self.old.back self.new.ahead self.new.back (is_err result) }
        ensures why { IfErr result (λ e. e ≡ Refusal.Stranger) }
    {
        let mut left = rules;
        while let [kind, first, second, rest @ ..] = left {
            self.take(count, *kind, *first, *second)?;
            left = rest;
        }
        Ok(())
    }
}
