// The staging of two lists for C and Rust. It takes numbers and addresses alone: a list is an address and a length.
#![tactic(auto)]

ghost use Rattle.run.specs.Call.{stage_list};
ghost use Rattle.monitor.specs.CallContracts.{Stages};
ghost use Rattle.rule_list.specs.Records.{rules_in};

use expression::refusal;
use rule_list::Rule;
use sheet::Sheet;

#[unsafe(no_mangle)]
pub extern "C" fn tihvomen_stage_rules(
    staged: &mut Sheet,
    n: u32,
    kinds: &[u8],
    rules: &[Rule],
) -> u8
    ensures { Stages staged.old (stage_list n kinds.now (rules_in rules.now)) result staged.new }
{
    refusal::number(&rule_list::stage_rules(staged, n, kinds, rules))
}
