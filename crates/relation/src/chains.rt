// The relation that marked rules give: chains of priority, and one side as written. Where a leads to k and k leads to c, a leads to c: each operator k is gone through
// once, n steps of n operations on words.
ghost use Rattle.std.specs.Prelude.{◌≡◌, ◌<◌};
ghost use Rattle.relation.specs.Kinds.{code_of};
ghost use Rattle.relation.specs.Chaining.{added, passed, chained, related};

use crate::count::Count;
use crate::kind::RuleKind;
use crate::layout::SHEET_WORDS;
use crate::{rules, words};

// Puts the pairs in that are marked for the kind.
#[tactic(auto, using(crate::proofs::ChainWays::add_ways))]
fn add(
    count: Count,
    kind: RuleKind,
    marks: &[u32; rules::MARK_WORDS],
    table: &mut [u32; SHEET_WORDS],
)
    ensures { table.new ≡ added count.n (code_of kind) marks.now table.old }
{
    for a in 0..count.n {
        table[a] |= marks[rules::word_of(kind, a)];
    }
}

// What leads to k leads to all that k leads to.
#[tactic(auto, using(crate::proofs::ChainWays::pass_ways))]
fn pass(count: Count, k: usize, table: &mut [u32; SHEET_WORDS])
    requires { k < count.n }
    ensures { table.new ≡ passed count.n k table.old }
{
    let row = table[k];
    for a in 0..count.n {
        table[a] = words::joined(table[a], k, row);
    }
}

// The same through each operator.
#[tactic(auto, using(crate::proofs::ChainWays::chain_ways))]
fn chain(count: Count, table: &mut [u32; SHEET_WORDS])
    ensures { table.new ≡ chained count.n count.n table.old }
{
    for k in 0..count.n {
        pass(count, k, table);
    }
}

// In an empty table, the chains of priority and the pairs of the side's rules.
#[tactic(auto, using(crate::proofs::ChainWays::relate_ways))]
pub fn relate(
    count: Count,
    side: RuleKind,
    marks: &[u32; rules::MARK_WORDS],
    table: &mut [u32; SHEET_WORDS],
)
    ensures { table.new ≡ related count.n (code_of side) marks.now table.old }
{
    add(count, RuleKind::Priority, marks, table);
    chain(count, table);
    add(count, side, marks, table);
}
