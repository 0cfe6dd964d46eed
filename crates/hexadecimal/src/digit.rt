// One hexadecimal digit, and the byte of two. The library's digits are characters and 32-bit numbers, with an answer for what is none: no plainer here.
ghost use Rattle.std.specs.Prelude.{◌≡◌, true, ◌<◌};
ghost use Rattle.hexadecimal.specs.Digits.{is_digit, Valued, byte_of, character_of};

// The value of a digit: its last four bits, and 9 more for a letter.
#[tactic(auto, using(crate::proofs::DigitWays::value_ways))]
fn value(c: u8) -> u8
    requires { is_digit c ≡ true }
    ensures { Valued c result }
{
    c % 16 + c / 64 * 9
}

// The byte of two digits, the high one first.
#[tactic(auto, using(crate::proofs::DigitWays::byte_ways))]
pub fn byte_of(high: u8, low: u8) -> u8
    requires { (is_digit high ≡ true) × (is_digit low ≡ true) }
    ensures { result ≡ byte_of high low }
{
    value(high) * 16 + value(low)
}

// The character of a digit, in lower case.
#[tactic(auto, using(crate::proofs::DigitWays::character_ways))]
pub fn character(v: u8) -> u8
    requires { v < 16 }
    ensures { result ≡ character_of v }
{
    if v < 10 { v + b'0' } else { v - 10 + b'a' }
}
