// What a record lacks among lent meanings and readings. The loops have no branch, so that bytes can be tested side by side.
ghost use Rattle.std.specs.Prelude.{◌≡◌, false};
ghost use Rattle.sheet.specs.Layout.{operators_of};
ghost use Rattle.record.specs.Checks.{stranger_in_record};
ghost use Rattle.evaluator.specs.Bytes.{meaningless, any_meaningless, all_meant, any_beyond};

use expression::{bytes, token};
use sheet::Sheet;

// The readings there are, 80 to FF.
const READINGS: usize = 0x100 - token::FIRST_READING as usize;

// The byte is an operator without a meaning of its kind.
#[tactic(auto, using(crate::proofs::Lacking::meaningless_ways))]
fn is_meaningless(sheet: &Sheet, lent: &[u8], byte: u8) -> bool
    ensures { result ≡ meaningless sheet.now lent.now byte }
{
    if token::OPENING <= byte {
        return false;
    }
    let o = byte as usize;
    if lent.len() <= o {
        return true;
    }
    if sheet.is_prefix(byte) {
        return meanings::is_prefix_missing(lent[o]);
    }
    meanings::is_missing(lent[o])
}

// Some byte is one.
#[tactic(auto, unfolding(crate::specs::Bytes::any_meaningless))]
fn any_meaningless(sheet: &Sheet, lent: &[u8], bytes: &[u8]) -> bool
    ensures { result ≡ any_meaningless sheet.now lent.now bytes.now }
{
    bytes::any(bytes, |byte| is_meaningless(sheet, lent, byte))
}

// No operator below n is one.
#[tactic(auto, using(crate::proofs::Lacking::all_meant_ways))]
fn all_meant(sheet: &Sheet, lent: &[u8], n: u8) -> bool
    ensures { result ≡ all_meant sheet.now lent.now n }
{
    let mut meant = true;
    for o in 0..n {
        meant = meant & !is_meaningless(sheet, lent, o);
    }
    meant
}

// Some byte of a record is one. Where all operators of the sheet have a meaning of their kind, the bytes need not be looked at. Without
// prefix operators the numbers alone tell; with some it is quicker to look at bytes that are no more than the operators.
#[tactic(auto, using(crate::proofs::Lacking::lacks_meaning_ways))]
pub fn lacks_meaning(sheet: &Sheet, lent: &[u8], bytes: &[u8]) -> bool
    requires { stranger_in_record (operators_of sheet.now) bytes.now ≡ false }
    ensures { result ≡ any_meaningless sheet.now lent.now bytes.now }
{
    let n = sheet.operator_count();
    let count = n as usize;
    if sheet.some_prefix() {
        if count < bytes.len() {
            if all_meant(sheet, lent, n) {
                return false;
            }
        }
        return any_meaningless(sheet, lent, bytes);
    }
    if lent.len() < count {
        return any_meaningless(sheet, lent, bytes);
    }
    if bytes::any(&lent[..count], meanings::is_missing) {
        return any_meaningless(sheet, lent, bytes);
    }
    false
}

// Some byte is a reading beyond so many lent ones. Where all are lent, none is.
#[tactic(auto, using(crate::proofs::Lacking::lacks_reading_ways))]
pub fn lacks_reading(count: usize, bytes: &[u8]) -> bool
    ensures { result ≡ any_beyond count bytes.now }
{
    if READINGS <= count {
        return false;
    }
    let limit = token::FIRST_READING + count as u8;
    bytes::any(bytes, |byte| limit <= byte)
}
