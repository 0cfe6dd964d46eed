// Why a call is turned down: the numbers of docs/REFERENCE.md, section 4, as in the specification's `Refusal`.
ghost use Rattle.std.specs.Prelude.{◌≡◌};
ghost use Rattle.expression.specs.Outcome.{number_of, number_in};

pub const ACCEPTED: u8 = 0;

#[derive(Clone, Copy, Debug, PartialEq, Eq)]
pub enum Refusal {
    Oversize = 1,
    Torn,
    Stranger,
    Dead,
    Double,
    NoRow,
    NoTree,
    Place,
    Empty,
    Short,
    InUse,
    Frame,
    NoMeaning,
    NoReading,
    NothingStaged,
    OtherRow,
    Conflict,
}

impl Refusal {
    pub fn number(self) -> u8
        ensures { result ≡ number_of self }
    {
        self as u8
    }
}

// The number of an outcome: 0, or the refusal's.
pub fn number<T>(outcome: &Result<T, Refusal>) -> u8
    ensures { result ≡ number_in outcome.now }
{
    match outcome {
        Ok(_) => ACCEPTED,
        Err(refusal) => refusal.number(),
    }
}
