// The kinds of operators, a byte for each: the prefix operators as a set.
ghost use Rattle.std.specs.Prelude.{◌≡◌, ◌≤◌, ◌<◌, length, eqb, not};
ghost use Rattle.expression.specs.Limits.{most_operators};
ghost use Rattle.expression.specs.Lists.{any_holds};
ghost use Rattle.disambiguation.specs.SheetChecks.{strange_kind};
ghost use Rattle.expression.specs.Token.{prefix_kind, kind_of};
ghost use Rattle.sheet.specs.Layout.{operators_of};
ghost use Rattle.sheet.specs.Kinds.{prefix_word, kind_changes};

use crate::Sheet;
use expression::bytes;
use relation::count::Count;
use relation::scan;

// The kind of a prefix operator, which is the last one. A byte, and no enum: one comparison tells, and bytes are tested side by side.
const PREFIX: u8 = 1;

// The kind is neither 00 nor 01.
fn is_strange(kind: u8) -> bool
    ensures { result ≡ strange_kind kind }
{
    PREFIX < kind
}

// Some kind is strange.
pub fn any_strange(kinds: &[u8]) -> bool
    ensures { result ≡ any_holds strange_kind kinds.now }
{
    bytes::any(kinds, is_strange)
}

// The set of the prefix operators.
pub fn prefixes(kinds: &[u8]) -> u32
    requires { length kinds.now ≤ most_operators }
    ensures { result ≡ prefix_word kinds.now (length kinds.now) }
{
    scan::set(Count { n: kinds.len() }, |at| kinds[at] == PREFIX)
}

// The kind of operator c is that of prefix operators; an operator that the sheet has not is none.
#[tactic(auto, using(crate::proofs::KindWays::prefix_kind_ways))]
fn has_prefix_kind(sheet: &Sheet, c: u8) -> bool
    requires { c < most_operators }
    ensures { result ≡ eqb (kind_of (operators_of sheet.now) c) prefix_kind }
{
    c < sheet.operator_count() && sheet.is_prefix(c)
}

// Operator c has another kind under the one sheet than under the other.
#[tactic(auto, using(crate::proofs::KindWays::differs_ways))]
fn differs(old: &Sheet, new: &Sheet, c: u8) -> bool
    requires { c < most_operators }
    ensures { result ≡ not (eqb (kind_of (operators_of old.now) c) (kind_of (operators_of new.now) c)) }
{
    has_prefix_kind(old, c) != has_prefix_kind(new, c)
}

// The set of the operators that do.
pub fn changes(old: &Sheet, new: &Sheet) -> u32
    ensures { result ≡ kind_changes (operators_of old.now) (operators_of new.now) }
{
    scan::set(Count::MOST, |c| differs(old, new, c as u8))
}
