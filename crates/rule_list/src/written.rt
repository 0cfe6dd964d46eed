// The buffer for a sheet's bytes: the rules' bytes are written one record at a time, and the kinds right before them as they are staged.
ghost use Rattle.std.specs.Prelude.{◌<◌, ◌≤◌, ◌≡◌};
ghost use Rattle.expression.specs.Limits.{most_rules};
ghost use Rattle.expression.specs.Outcome.{number_in};
ghost use Rattle.rule_list.specs.Records.{put_at, StagesList};

use crate::Rule;
use expression::limits;
use expression::refusal::Refusal;
use sheet::lists::{BUFFER_BYTES, KIND_BYTES};
use sheet::{Sheet, lists};

// Writes the three bytes of record i at their place.
pub fn put_rule(bytes: &mut [u8; BUFFER_BYTES], i: usize, rule: Rule)
    requires { i < most_rules }
    ensures { bytes.new ≡ put_at bytes.old i rule }
{
    let at = KIND_BYTES + i * limits::BYTES_OF_RULE;
    bytes[at] = rule.kind;
    bytes[at + 1] = rule.first;
    bytes[at + 2] = rule.second;
}

// Stages the kinds, and the first `count` rules whose bytes are in the buffer. No struct of the two: the count is the length of C's list.
#[tactic(auto, using(crate::proofs::WrittenWays::stage_written_ways))]
pub fn stage_written(
    staged: &mut Sheet,
    n: u32,
    kinds: &[u8],
    bytes: &mut [u8; BUFFER_BYTES],
    count: usize,
) -> Result<(), Refusal>
    requires { count ≤ most_rules }
    ensures { StagesList staged.old n kinds.now bytes.old count (number_in result) staged.new }
{
    lists::check_kinds(n, kinds.len())?;
    let all: &mut [u8] = bytes;
    let from = lists::put_kinds(kinds, all);
    let to = KIND_BYTES + count * limits::BYTES_OF_RULE;
    let written = &all[..];
    monitor::stage(staged, n, &written[from..to])
}
