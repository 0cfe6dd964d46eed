// The marks of a record: which left operands show a conflict by a prefix operator on their right edge.
ghost use Rattle.std.specs.Prelude.{◌≡◌, false, Some, length, replicate};
ghost use Rattle.expression.specs.Limits.{most_record_bytes};
ghost use Rattle.expression.specs.Lists.{any_holds};
ghost use Rattle.sheet.specs.Layout.{operators_of, prefix_in};
ghost use Rattle.record.specs.Node.{node_at};
ghost use Rattle.brackets.specs.Edges.{closes_under, seer_past, Marked, Stands, Fills, MarksEdges};

use expression::bytes;
use expression::limits::MOST_RECORD_BYTES;
use record::Node;
use record::conflicts::Around;
use sheet::Sheet;

// Some byte is a prefix operator; with no look at the bytes under a sheet that has none.
#[tactic(auto, using(crate::proofs::PrefixBytes::has_prefix_ways))]
pub fn has_prefix(sheet: &Sheet, bytes: &[u8]) -> bool
    ensures { result ≡ any_holds (prefix_in sheet.now) bytes.now }
{
    if !sheet.some_prefix() {
        return false;
    }
    bytes::any(bytes, |c| sheet.is_prefix(c))
}

// The node at a place where a tree stands.
pub fn top_at(sheet: &Sheet, whole: &[u8; MOST_RECORD_BYTES], at: usize) -> Node
    requires { Stands sheet.now whole.now at }
    ensures { Some result ≡ node_at (operators_of sheet.now) whole.now at }
{
    record::node_at(sheet, &whole[..], at).unwrap()
}

// Operator o on top of a tree, as a right or only operand, shows a conflict with the operator above, if there is one.
pub fn closes_under(sheet: &Sheet, above: Option<u8>, o: u8) -> bool
    ensures { result ≡ closes_under sheet.now above o }
{
    match above {
        Some(above) => sheet.closes_before(above, o),
        None => false,
    }
}

// Who sees the right edge of operator o's tree, which stands under the operator above: none where it is bracketed there.
#[tactic(auto, using(crate::proofs::MarkingEdges::seer_past_ways))]
fn seer_past(sheet: &Sheet, around: Around, o: u8) -> Option<u8>
    ensures { result ≡ seer_past sheet.now around.above o around.seer }
{
    if closes_under(sheet, around.above, o) {
        return None;
    }
    around.seer
}

// Marks the tree at the place: at each of its infix operators, whether the left operand shows it a conflict on its right edge.
// The answer is the place after the tree, and whether the tree, as the right or only operand of the operator above, shows the seer
// such a conflict.
#[tactic(auto, using(crate::proofs::MarkingInfix::ways))]
pub fn mark_edges(
    sheet: &Sheet,
    whole: &[u8; MOST_RECORD_BYTES],
    from: usize,
    outside: Around,
    marks: &mut [bool; MOST_RECORD_BYTES],
) -> (usize, bool)
    requires stands { Stands sheet.now whole.now from }
    requires marks_len { length marks.old ≡ most_record_bytes }
    ensures { MarksEdges sheet.now whole.now from outside.above outside.seer marks.old marks.new result.0 result.1 }
{
    let mut at = from;
    let mut around = outside;
    let mut shown = false;
    loop {
        match top_at(sheet, whole, at) {
            Node::Reading(_) => {
                return (at + 1, shown);
            }
            Node::Bracket => {
                at += 1;
            }
            Node::Prefix(p) => {
                shown |= around.sees_edge(sheet, p);
                around.above = Some(p);
                at += 1;
            }
            Node::Operator(o) => {
                let left = Around {
                    above: None,
                    seer: Some(o),
                };
                let (seam, mark) = mark_edges(sheet, whole, at + 1, left, marks);
                marks[at] = mark;
                around.seer = seer_past(sheet, around, o);
                around.above = Some(o);
                at = seam;
            }
        }
    }
}

// The marks of a record, which is the first `size` bytes. None is set at first, and none is without a walk where the record has no
// prefix operator.
#[tactic(auto, using(crate::proofs::MarkedRecord::mark_record_ways))]
pub fn mark_record(
    sheet: &Sheet,
    whole: &[u8; MOST_RECORD_BYTES],
    size: usize,
    marks: &mut [bool; MOST_RECORD_BYTES],
)
    requires fills { Fills sheet.now whole.now size }
    requires marks_value { marks.old ≡ replicate most_record_bytes false }
    ensures { Marked sheet.now whole.now marks.new 0 size }
{
    let all = &whole[..];
    if has_prefix(sheet, &all[0..size]) {
        mark_edges(sheet, whole, 0, Around::NOTHING, marks);
    }
}
