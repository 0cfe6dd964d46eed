// The meanings of operators, by their numbers (docs/REFERENCE.md, section 7). Zero is false, all else is true; a truth answer is 0 or 1.
#![tactic(auto)]

ghost use Rattle.std.specs.Prelude.{◌≡◌};
ghost use Rattle.meanings.specs.Meanings.{is_true, truth, applied, applied_to, meant, prefix_meant, worked, worked_on, is_missing};
ghost use Rattle.meanings.specs.Enums.{said, prefix_said};

use expression::refusal::Refusal;

// Those of infix operators.
#[derive(Clone, Copy, Debug, PartialEq, Eq)]
pub enum Meaning {
    Or = 1,
    And,
    Less,
    AtMost,
    Equal,
    Sum,
    Difference,
    Smaller,
    Larger,
}

// Those of prefix operators.
#[derive(Clone, Copy, Debug, PartialEq, Eq)]
pub enum PrefixMeaning {
    Not = 10,
    Minus,
}

// The first of their numbers: an infix operator's is below it.
pub const NOT: u8 = PrefixMeaning::Not as u8;

impl TryFrom<u8> for Meaning {
    type Error = Refusal;

    ghost use Rattle.meanings.specs.Enums.{Decodes};

    ghost try_from_gives = { Decodes };

    fn try_from(number: u8) -> Result<Self, Refusal> {
        match number {
            1 => Ok(Meaning::Or),
            2 => Ok(Meaning::And),
            3 => Ok(Meaning::Less),
            4 => Ok(Meaning::AtMost),
            5 => Ok(Meaning::Equal),
            6 => Ok(Meaning::Sum),
            7 => Ok(Meaning::Difference),
            8 => Ok(Meaning::Smaller),
            9 => Ok(Meaning::Larger),
            _ => Err(Refusal::NoMeaning),
        }
    }
}

impl TryFrom<u8> for PrefixMeaning {
    type Error = Refusal;

    ghost use Rattle.meanings.specs.Enums.{PrefixDecodes};

    ghost try_from_gives = { PrefixDecodes };

    fn try_from(number: u8) -> Result<Self, Refusal> {
        match number {
            10 => Ok(PrefixMeaning::Not),
            11 => Ok(PrefixMeaning::Minus),
            _ => Err(Refusal::NoMeaning),
        }
    }
}

fn is_true(a: i32) -> bool
    ensures { result ≡ is_true a }
{
    a != 0
}

// A truth answer.
#[tactic(auto, using(crate::proofs::Applying::truth_ways))]
fn truth(holds: bool) -> i32
    ensures { result ≡ truth holds }
{
    i32::from(holds)
}

impl Meaning {
    // What it makes of the values of the left and of the right operand. All are worked out and one is picked, since which one it will
    // be cannot be foreseen.
    pub fn apply(self, a: i32, b: i32) -> i32
        ensures { result ≡ applied (said self) a b }
    {
        let made = [
            truth(is_true(a) | is_true(b)),
            truth(is_true(a) & is_true(b)),
            truth(a < b),
            truth(a <= b),
            truth(a == b),
            a.saturating_add(b),
            a.saturating_sub(b),
            a.min(b),
            a.max(b),
        ];
        made[self as usize - 1]
    }
}

impl PrefixMeaning {
    // What it makes of the value of the only operand.
    pub fn apply(self, a: i32) -> i32
        ensures { result ≡ applied_to (prefix_said self) a }
    {
        match self {
            PrefixMeaning::Not => truth(!is_true(a)),
            PrefixMeaning::Minus => 0i32.saturating_sub(a),
        }
    }
}

// What the meaning with that number makes of the values of the left and of the right operand; 0 where there is none.
pub fn apply(number: u8, a: i32, b: i32) -> i32
    ensures { result ≡ worked (meant number) a b }
{
    let Ok(meaning) = Meaning::try_from(number) else {
        return 0;
    };
    meaning.apply(a, b)
}

// What the meaning with that number makes of the value of the only operand; 0 where there is none.
pub fn apply_prefix(number: u8, a: i32) -> i32
    ensures { result ≡ worked_on (prefix_meant number) a }
{
    match PrefixMeaning::try_from(number) {
        Ok(meaning) => meaning.apply(a),
        Err(_) => 0,
    }
}

// No meaning of infix operators has that number.
pub fn is_missing(number: u8) -> bool
    ensures { result ≡ is_missing (meant number) }
{
    Meaning::try_from(number).is_err()
}

// No meaning of prefix operators has it.
pub fn is_prefix_missing(number: u8) -> bool
    ensures { result ≡ is_missing (prefix_meant number) }
{
    PrefixMeaning::try_from(number).is_err()
}
