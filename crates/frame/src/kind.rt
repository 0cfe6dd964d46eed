// What a frame asks for: its first byte is the kind.
ghost use Rattle.frame.specs.Kinds.{Decodes};

use expression::refusal::Refusal;

#[derive(Clone, Copy, Debug, PartialEq, Eq)]
pub enum Kind {
    Stage,
    PutRow,
    Drop,
    FetchRecord,
    FetchRow,
    PutRecord,
    Judge,
    Repair,
    Image,
    Switch,
}

impl TryFrom<u8> for Kind {
    type Error = Refusal;

    ghost try_from_gives = { Decodes };

    fn try_from(byte: u8) -> Result<Self, Refusal> {
        match byte {
            1 => Ok(Kind::Stage),
            2 => Ok(Kind::PutRow),
            3 => Ok(Kind::Drop),
            4 => Ok(Kind::FetchRecord),
            5 => Ok(Kind::FetchRow),
            6 => Ok(Kind::PutRecord),
            7 => Ok(Kind::Judge),
            8 => Ok(Kind::Repair),
            9 => Ok(Kind::Image),
            10 => Ok(Kind::Switch),
            _ => Err(Refusal::Frame),
        }
    }
}
