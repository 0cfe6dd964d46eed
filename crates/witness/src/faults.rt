// The first operators that show a fault of a sheet's relations. For an operator, or for two, those beside them that do are a set of bits, and the first one is
// its lowest.
ghost use Rattle.std.specs.Prelude.{◌≡◌, ◌<◌, MatchOption, IfSome};
ghost use Rattle.disambiguation.specs.Below.{first_below};
ghost use Rattle.disambiguation.specs.Witness.{first_right, first_third};
ghost use Rattle.relation.specs.Below.{if_below};
ghost use Rattle.relation.specs.Relation.{bit_of};
ghost use Rattle.relation.specs.Relations.{ops, closing};
ghost use Rattle.witness.specs.Faults.{dead_pair, double_pair, uneven_in};

use relation::count::Count;
use relation::relations::Relations;
use relation::{scan, words};

// The first that is in the set.
#[tactic(auto, using(crate::proofs::LowestBit::first_in_ways))]
fn first_in(count: Count, set: u32) -> Option<usize>
    ensures { result ≡ if_below count.n (first_below count.n (bit_of set)) }
{
    let c = set.trailing_zeros() as usize;
    if c < count.n { Some(c) } else { None }
}

// The first that stands right of a, where each excludes the other.
#[tactic(auto, using(crate::proofs::FaultWays::right_ways))]
pub fn dead_right(relations: &Relations, a: usize) -> Option<usize>
    requires { a < relations.now.count.n }
    ensures { result ≡ if_below relations.now.count.n (first_right (ops relations.now) (dead_pair relations.now) a) }
{
    first_in(relations.count, relations.comers(a) & relations.yields[a])
}

// The first where neither does.
#[tactic(auto, using(crate::proofs::FaultWays::right_ways))]
pub fn double_right(relations: &Relations, a: usize) -> Option<usize>
    requires { a < relations.now.count.n }
    ensures { result ≡ if_below relations.now.count.n (first_right (ops relations.now) (double_pair relations.now) a) }
{
    first_in(
        relations.count,
        !(relations.closes[a] | relations.prefixes | relations.yields[a]),
    )
}

// The first that shows that a and b are not level.
#[tactic(auto, using(crate::proofs::FaultWays::third_ways))]
fn uneven_third(relations: &Relations, a: usize, b: usize) -> Option<usize>
    requires { (a < relations.now.count.n) × (b < relations.now.count.n) }
    ensures { result ≡ if_below relations.now.count.n (first_third (ops relations.now) (closing relations.now) a b) }
{
    if words::has(relations.prefixes, b) {
        return None;
    }
    if words::has(relations.closes[a], b) {
        return first_in(
            relations.count,
            words::without(relations.comers(b), relations.closes[a]),
        );
    }
    first_in(
        relations.count,
        words::without(relations.comers(a), relations.closes[b]),
    )
}

// The first b that is not level with a, and the first that shows it.
#[tactic(auto, using(crate::proofs::FaultWays::found_ways))]
pub fn uneven_right(relations: &Relations, a: usize) -> Option<(usize, usize)>
    requires { a < relations.now.count.n }
    ensures first { MatchOption result (first_right (ops relations.now) (uneven_in relations.now) a ≡ relations.now.count.n)
        (λ found. found.0 ≡ first_right (ops relations.now) (uneven_in relations.now) a) }
    ensures found { IfSome result (λ found. (found.0 < relations.now.count.n)
        × (found.1 < relations.now.count.n) × (found.1 ≡ first_third (ops relations.now) (closing relations.now) a found.0)) }
{
    scan::first(relations.count.n, |b| uneven_third(relations, a, b))
}
