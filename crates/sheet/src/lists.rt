// A sheet whose kinds and rules come as two lists, in one buffer: the rules' bytes have a fixed place there, and the kinds go right before them.
ghost use Rattle.std.specs.Prelude.{◌≡◌, ◌≤◌, length};
ghost use Rattle.expression.specs.Limits.{most_operators};
ghost use Rattle.expression.specs.Outcome.{number_in};
ghost use Rattle.sheet.specs.Lists.{kinds_number, buffer_bytes, PutsKinds};

use expression::refusal::Refusal;
use expression::{bytes, limits};

// Room for a kind byte of every operator, and then for the bytes of the most rules.
pub const KIND_BYTES: usize = limits::MOST_OPERATORS as usize;

pub const BUFFER_BYTES: usize = KIND_BYTES + limits::MOST_RULE_BYTES;

// Numbers 1 and 2: the checks of n and of the number of kinds.
#[tactic(auto, using(crate::proofs::ListWays::kinds_number_ways))]
pub fn check_kinds(n: u32, kinds: usize) -> Result<(), Refusal>
    ensures { number_in result ≡ kinds_number n kinds }
{
    if (limits::MOST_OPERATORS as u32) < n {
        return Err(Refusal::Oversize);
    }
    if kinds != n as usize {
        return Err(Refusal::Torn);
    }
    Ok(())
}

// Puts the kinds right before the rules' bytes; the place where they begin.
#[tactic(auto, using(crate::proofs::ListWays::put_kinds_ways))]
pub fn put_kinds(kinds: &[u8], bytes: &mut [u8]) -> usize
    requires { (length kinds.now ≤ most_operators) × (length bytes.old ≡ buffer_bytes) }
    ensures { PutsKinds kinds.now bytes.old result bytes.new }
{
    let from = KIND_BYTES - kinds.len();
    bytes::copy(kinds, &mut bytes[from..KIND_BYTES]);
    from
}
