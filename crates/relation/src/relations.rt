// What a sheet says of its operators.
use crate::chains;
use crate::count::Count;
use crate::kind::RuleKind;
use crate::layout::SHEET_WORDS;
use crate::rules::{MARK_WORDS, Marks};
use expression::refusal::Refusal;

// Which of its operators are prefix operators, what closes before what, and what yields to what.
#[derive(Drop)]
pub struct Relations {
    pub count: Count,
    pub prefixes: u32,
    pub closes: [u32; SHEET_WORDS],
    pub yields: [u32; SHEET_WORDS],
}

impl Relations {
    ghost use Rattle.relation.specs.Relations.{Relate};

    // The rules read, and the relations that they give. A strange one is refused.
    #[tactic(auto, using(crate::proofs::RelateWays::relate_ways))]
    pub fn read(count: Count, prefixes: u32, rules: &[u8]) -> Result<Relations, Refusal>
        ensures { Relate count prefixes rules.now result }
    {
        let mut marks = Marks {
            ahead: [0; MARK_WORDS],
            back: [0; MARK_WORDS],
        };
        marks.read(count, rules)?;
        let mut closes = [0; SHEET_WORDS];
        let mut yields = [0; SHEET_WORDS];
        chains::relate(count, RuleKind::Left, &marks.ahead, &mut closes);
        chains::relate(count, RuleKind::Right, &marks.back, &mut yields);
        Ok(Relations {
            count,
            prefixes,
            closes,
            yields,
        })
    }
}
