// The kinds of rules: a over b, a left b, a right b.
use expression::refusal::Refusal;

#[derive(Clone, Copy, Debug, PartialEq, Eq)]
pub enum RuleKind {
    Priority = 1,
    Left,
    Right,
}

impl TryFrom<u8> for RuleKind {
    ghost use Rattle.relation.specs.Kinds.{DecodesKind};

    type Error = Refusal;

    ghost try_from_gives = { DecodesKind };

    fn try_from(code: u8) -> Result<Self, Refusal> {
        match code {
            1 => Ok(RuleKind::Priority),
            2 => Ok(RuleKind::Left),
            3 => Ok(RuleKind::Right),
            _ => Err(Refusal::Stranger),
        }
    }
}
