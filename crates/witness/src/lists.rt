// Why a sheet whose kinds and rules come as two lists is refused.
ghost use Rattle.std.specs.Prelude.{◌≡◌, ◌++◌, ◌≤◌, length};
ghost use Rattle.expression.specs.Limits.{most_operators, most_rule_bytes};
ghost use Rattle.disambiguation.specs.SheetChecks.{rules_of};
ghost use Rattle.sheet.specs.Lists.{buffer_bytes};
ghost use Rattle.record.specs.Outcome.{answer_of};
ghost use Rattle.witness.specs.Explaining.{Explains, ExplainsList};

use crate::explain;
use expression::refusal::Refusal;
use expression::{bytes, limits};
use sheet::lists;

// Why the sheet of n operators with these kinds and these rules' bytes is refused: both are put into the buffer, the kinds right before the rules.
#[tactic(auto, using(crate::proofs::ListWays::explain_joined_ways))]
fn explain_joined(
    n: u32,
    kinds: &[u8],
    rules: &[u8],
    bytes: &mut [u8],
    out: &mut [u8],
) -> Result<usize, Refusal>
    requires { (length kinds.now ≤ most_operators) × (length rules.now ≤ most_rule_bytes) × (length bytes.old ≡ buffer_bytes) }
    ensures { Explains n (kinds.now ++ rules.now) out.old out.new (answer_of result) }
{
    bytes::copy(rules, &mut bytes[lists::KIND_BYTES..lists::BUFFER_BYTES]);
    let from = lists::put_kinds(kinds, bytes);
    let to = lists::KIND_BYTES + rules.len();
    let written = &bytes[..];
    explain(n, &written[from..to], out)
}

// Why the sheet of n operators is refused. Of the rules the bytes come, three a rule; what is left over is none.
#[tactic(auto, using(crate::proofs::ListWays::explain_list_ways))]
pub fn explain_list(n: u32, kinds: &[u8], rules: &[u8], out: &mut [u8]) -> Result<usize, Refusal>
    ensures { ExplainsList n kinds.now (rules_of rules.now) out.old out.new (answer_of result) }
{
    let count = rules.len() / limits::BYTES_OF_RULE;
    if limits::MOST_RULES < count {
        return Err(Refusal::Oversize);
    }
    lists::check_kinds(n, kinds.len())?;
    let used = &rules[..count * limits::BYTES_OF_RULE];
    let mut bytes = [0u8; lists::BUFFER_BYTES];
    explain_joined(n, kinds, used, &mut bytes, out)
}
