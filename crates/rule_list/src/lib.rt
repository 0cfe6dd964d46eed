// The staging of a sheet whose kinds and rules come as two lent lists. Only `stage_rules` walks the list of rules; all else has plain parameters.
#![tactic(auto)]

ghost use Rattle.run.specs.Call.{stage_list};
ghost use Rattle.expression.specs.Outcome.{number_in};
ghost use Rattle.monitor.specs.CallContracts.{Stages};
ghost use Rattle.rule_list.specs.Records.{rules_in};

use expression::limits;
use expression::refusal::Refusal;
use sheet::Sheet;
use sheet::lists::BUFFER_BYTES;

mod written;

// A rule: its kind, and the operators that it names first and second.
#[repr(C)]
#[derive(Clone, Copy)]
pub struct Rule {
    pub kind: u8,
    pub first: u8,
    pub second: u8,
}

// The sheet of n operators, the kinds and the list's rules is staged, as in the staging of their bytes. Too many records are refused before
// any is read. The crate `rule_list_c` exports it for C and Rust.
pub fn stage_rules(staged: &mut Sheet, n: u32, kinds: &[u8], rules: &[Rule]) -> Result<(), Refusal>
    ensures { Stages staged.old (stage_list n kinds.now (rules_in rules.now)) (number_in result) staged.new }
{
    if limits::MOST_RULES < rules.len() {
        return Err(Refusal::Oversize);
    }
    let mut bytes = [0u8; BUFFER_BYTES];
    for (i, rule) in rules.iter().enumerate() {
        written::put_rule(&mut bytes, i, *rule);
    }
    written::stage_written(staged, n, kinds, &mut bytes, rules.len())
}
