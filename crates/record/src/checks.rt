// The checks of a record: strangers, the length of its row.
ghost use Rattle.std.specs.Prelude.{◌≡◌, []};
ghost use Rattle.expression.specs.Token.{operators, class};
ghost use Rattle.expression.specs.Checks.{strange_in_record};
ghost use Rattle.sheet.specs.Layout.{operators_of};
ghost use Rattle.record.specs.Checks.{stranger_in_record, row_length};

use crate::walks::Record;
use expression::{bytes, token};

// The byte stands in no record: it has no meaning under n operators, or closes a bracket.
#[tactic(auto, using(crate::proofs::Checking::is_strange_ways))]
fn is_strange(n: u8, byte: u8) -> bool
    ensures { result ≡ strange_in_record (class (operators n []) byte) }
{
    if byte < token::OPENING {
        return n <= byte;
    }
    if byte < token::FIRST_READING {
        return byte != token::OPENING;
    }
    false
}

impl Record<'_> {
    // Some byte is a stranger: the count of operators alone tells.
    pub fn has_stranger(&self) -> bool
        ensures { result ≡ stranger_in_record (operators_of self.now.sheet.now) self.now.bytes.now }
    {
        let n = self.sheet.operator_count();
        bytes::any(self.bytes, |byte| is_strange(n, byte))
    }

    // The tokens of a tree's row, from its record: one for each byte, and one more for each bracket. They are counted in few bits,
    // so that bytes can be counted side by side.
    pub fn row_length(&self) -> usize
        ensures { result ≡ row_length self.now.bytes.now }
    {
        let mut brackets = 0u16;
        for byte in self.bytes {
            brackets += u16::from(*byte == token::OPENING);
        }
        self.bytes.len() + usize::from(brackets)
    }
}
