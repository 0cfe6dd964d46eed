// Why a sheet is refused: the first row, of two operators or of three, that has no conflict-free tree, or two, and then both trees.
#![tactic(auto)]

ghost use Rattle.std.specs.Prelude.{◌≡◌, ◌<◌, slice_index};
ghost use Rattle.disambiguation.specs.Witness.{of_triples, witness, witness_bytes};
ghost use Rattle.relation.specs.Relation.{bit_of};
ghost use Rattle.relation.specs.Relations.{ops, closing, yielding};
ghost use Rattle.record.specs.Outcome.{answer_of};
ghost use Rattle.witness.specs.Explaining.{Explains};

use expression::bytes;
use expression::refusal::Refusal;
use relation::relations::Relations;
use relation::{scan, words};
use shapes::{Pair, Triple};
use text::Text;

mod faults;
pub mod limits;
pub mod lists;
mod shapes;
mod text;

// The row of a and b.
fn pair(relations: &Relations, a: usize, b: usize) -> Pair
    requires { (a < relations.now.count.n) × (b < relations.now.count.n) }
    ensures { (result.prefix ≡ bit_of relations.now.prefixes a) × (result.a ≡ a) × (result.b ≡ b) }
{
    Pair {
        prefix: words::has(relations.prefixes, a),
        a: a as u8,
        b: b as u8,
    }
}

// The row of a, b and c.
fn triple(relations: &Relations, a: usize, b: usize, c: usize) -> Triple
    requires { (a < relations.now.count.n) × (b < relations.now.count.n) × (c < relations.now.count.n) }
    ensures { (result.prefix ≡ bit_of relations.now.prefixes a) × (result.closes ≡ bit_of (slice_index relations.now.closes a) b)
        × (result.a ≡ a) × (result.b ≡ b) × (result.c ≡ c) }
{
    Triple {
        prefix: words::has(relations.prefixes, a),
        closes: words::has(relations.closes[a], b),
        a: a as u8,
        b: b as u8,
        c: c as u8,
    }
}

// What triples show.
fn tell_triple(relations: &Relations) -> Text
    ensures { result ≡ witness_bytes (of_triples (ops relations.now) (closing relations.now)) }
{
    match scan::first(relations.count.n, |a| faults::uneven_right(relations, a)) {
        None => shapes::sound(),
        Some((a, (b, c))) => triple(relations, a, b, c).two_trees(),
    }
}

// The witness of the relations.
fn tell(relations: &Relations) -> Text
    ensures { result ≡ witness_bytes (witness (ops relations.now) (yielding relations.now) (closing relations.now)) }
{
    let n = relations.count.n;
    if let Some((a, b)) = scan::first(n, |a| faults::dead_right(relations, a)) {
        return pair(relations, a, b).no_tree();
    }
    if let Some((a, b)) = scan::first(n, |a| faults::double_right(relations, a)) {
        return pair(relations, a, b).two_trees();
    }
    tell_triple(relations)
}

// The sheet of n operators with their kinds and the rules: the verdict, and what shows it. After a refusal `out` is as it was.
pub fn explain(n: u32, bytes: &[u8], out: &mut [u8]) -> Result<usize, Refusal>
    ensures { Explains n bytes.now out.old out.new (answer_of result) }
{
    let relations = sheet::read(n, bytes)?;
    let text = tell(&relations);
    let told = text.bytes();
    if out.len() < told.len() {
        return Err(Refusal::Short);
    }
    bytes::copy(told, out);
    Ok(told.len())
}
