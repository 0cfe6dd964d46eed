// Operator sheets: kinds and rules in bytes, the relation that they give, and the numbers 1 to 5 (docs/REFERENCE.md, section 4).
#![tactic(auto)]

ghost use Rattle.std.specs.Prelude.{◌≡◌, ◌&&◌, ltb, ℕ, List};
ghost use Rattle.expression.specs.Limits.{most_operators};
ghost use Rattle.expression.specs.Outcome.{number_in};
ghost use Rattle.sheet.specs.Layout.{operators_of, prefix_in, some_prefix, is_loaded, fresh};
ghost use Rattle.relation.specs.Relation.{bit_of, closes_in};
ghost use Rattle.sheet.specs.Kinds.{kind_changes};
ghost use Rattle.sheet.specs.Loading.{Loads, MakesSheet, size_number};

use expression::limits;
use expression::refusal::Refusal;
use layout::SHEET_WORDS;
use relation::count::Count;
use relation::relations::Relations;
use relation::words;
use std::marker::Model;

mod kinds;
pub mod layout;
pub mod lists;
pub mod powers;

// A lent sheet: the words of the relation, and others whose layout is known here alone; all zero is the fresh one.
#[repr(C)]
#[derive(Clone, Copy, Debug, PartialEq, Eq)]
pub struct Sheet {
    pub(crate) words: [u32; SHEET_WORDS],
}

impl Model for Sheet {
    ghost Value = { List ℕ };

    ghost view = { λ sheet. sheet.words };

    ghost inverse = { λ words. record { words = words } };
}

// Any words are a sheet's, as those that a caller has kept.
impl From<[u32; SHEET_WORDS]> for Sheet {
    ghost from_gives = { λ words sheet. sheet ≡ words };

    fn from(words: [u32; SHEET_WORDS]) -> Sheet {
        Sheet { words }
    }
}

impl Sheet {
    // The words, for a caller that keeps or compares them.
    pub fn words(&self) -> &[u32; SHEET_WORDS]
        ensures { result.now ≡ self.now }
    {
        &self.words
    }

    // No sheet was loaded into it.
    pub fn fresh() -> Self
        ensures { result ≡ fresh }
    {
        Sheet {
            words: [0; SHEET_WORDS],
        }
    }

    // The count of the sheet's operators, n.
    #[tactic(auto, using(crate::proofs::LayoutWays::operator_count_ways))]
    pub fn operator_count(&self) -> u8
        ensures { result ≡ (operators_of self.now).count }
    {
        (self.words[layout::COUNT_WORD] % 256) as u8
    }

    // Operator a closes before b; false where either is no operator.
    #[tactic(auto, using(crate::proofs::LayoutWays::closes_before_ways))]
    pub fn closes_before(&self, a: u8, b: u8) -> bool
        ensures { result ≡ closes_in self.now a b }
    {
        a < limits::MOST_OPERATORS && is_in(self.words[a as usize], b)
    }

    // Operator c is a prefix operator; false where it is none of 32.
    #[tactic(auto, using(crate::proofs::LayoutWays::is_prefix_ways))]
    pub fn is_prefix(&self, c: u8) -> bool
        ensures { result ≡ prefix_in self.now c }
    {
        is_in(self.words[layout::PREFIX_WORD], c)
    }

    // Some operator may be a prefix operator: where this is false, none is.
    #[tactic(auto, using(crate::proofs::LayoutWays::some_prefix_ways))]
    pub fn some_prefix(&self) -> bool
        ensures { result ≡ some_prefix self.now }
    {
        self.words[layout::PREFIX_WORD] != 0
    }

    // A sheet was loaded into the words, be it one of no operators and no rules.
    #[tactic(auto, using(crate::proofs::LayoutWays::is_loaded_ways))]
    pub fn is_loaded(&self) -> bool
        ensures { result ≡ is_loaded self.now }
    {
        self.words[layout::LOADED_WORD] != 0
    }

    // The operators whose kinds the two sheets do not agree on, as a set.
    pub fn kind_changes(&self, new: &Sheet) -> u32
        ensures { result ≡ kind_changes (operators_of self.now) (operators_of new.now) }
    {
        kinds::changes(self, new)
    }

    // The sheet of n operators with their kinds and the rules is judged. The lent sheet is written only where it is accepted.
    #[tactic(auto, using(crate::proofs::Loading::load_ways))]
    pub fn load(&mut self, n: u32, bytes: &[u8]) -> Result<(), Refusal>
        ensures { Loads self.old n bytes.now (number_in result) self.new }
    {
        let made = read(n, bytes)?;
        made.verdict()?;
        self.words = made.closes;
        self.words[layout::COUNT_WORD] = n;
        self.words[layout::PREFIX_WORD] = made.prefixes;
        self.words[layout::LOADED_WORD] = 1;
        Ok(())
    }
}

// Operator c is in the set; false where it is none of 32.
#[tactic(auto, using(crate::proofs::LayoutWays::is_in_ways))]
pub fn is_in(set: u32, c: u8) -> bool
    ensures { result ≡ (ltb c most_operators && bit_of set c) }
{
    c < limits::MOST_OPERATORS && words::has(set, c as usize)
}

// Numbers 1 and 2: the checks that need no look at the bytes. The kinds come first, a byte for each operator.
#[tactic(auto, using(crate::proofs::Loading::size_ways))]
fn check_size(n: u32, length: usize) -> Result<(), Refusal>
    ensures { number_in result ≡ size_number n length }
{
    if (limits::MOST_OPERATORS as u32) < n {
        return Err(Refusal::Oversize);
    }
    let kinds = n as usize;
    if length < kinds {
        return Err(Refusal::Torn);
    }
    if limits::MOST_RULE_BYTES < length - kinds {
        return Err(Refusal::Oversize);
    }
    if (length - kinds) % limits::BYTES_OF_RULE != 0 {
        return Err(Refusal::Torn);
    }
    Ok(())
}

// The sheet of n operators with their kinds and the rules, read, and its relations made. Numbers 1, 2 and 3.
#[tactic(auto, using(crate::proofs::Loading::read_ways))]
pub fn read(n: u32, bytes: &[u8]) -> Result<Relations, Refusal>
    ensures { MakesSheet n bytes.now result }
{
    check_size(n, bytes.len())?;
    let count = Count { n: n as usize };
    let (kinds, rules) = bytes.split_at(count.n);
    if kinds::any_strange(kinds) {
        return Err(Refusal::Stranger);
    }
    Relations::read(count, kinds::prefixes(kinds), rules)
}
