// Lines of digits, read and written pair by pair.
ghost use Rattle.std.specs.Prelude.{◌≡◌, true, ◌*◌, ◌≤◌, length};
ghost use Rattle.std.proofs.lemmas.List.Edits.{sets};
ghost use Rattle.hexadecimal.specs.Digits.{all_digits};
ghost use Rattle.hexadecimal.specs.Text.{pair_bytes, text_of};

use crate::digit;

// Every character is a digit. None ends the test early, so that several characters are tested at a time.

pub fn all_digits(line: &[u8]) -> bool
    ensures { result ≡ all_digits line.now }
{
    line.iter().fold(true, |all, c| all & c.is_ascii_hexdigit())
}

// The bytes of the pairs, from the front of the output on.
#[tactic(auto, using(crate::proofs::PairWays::read_ways))]
pub fn write_bytes(line: &[u8], out: &mut [u8])
    requires { (all_digits line.now ≡ true) × (length line.now ≤ length out.old * 2) }
    ensures { out.new ≡ sets out.old 0 (pair_bytes line.now) }
{
    let (pairs, _) = line.as_chunks::<2>();
    for (i, [high, low]) in pairs.iter().enumerate() {
        out[i] = digit::byte_of(*high, *low);
    }
}

// The digit pairs of the bytes, from the front of the output on.
#[tactic(auto, using(crate::proofs::PairWays::write_ways))]
pub fn write_text(bytes: &[u8], out: &mut [u8])
    requires { length bytes.now * 2 ≤ length out.old }
    ensures { out.new ≡ sets out.old 0 (text_of bytes.now) }
{
    for (i, byte) in bytes.iter().enumerate() {
        out[i * 2] = digit::character(byte / 16);
        out[i * 2 + 1] = digit::character(byte % 16);
    }
}
