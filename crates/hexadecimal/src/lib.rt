// Bytes as text: pairs of hexadecimal digits, either letter case read, lower case written.
#![tactic(auto)]

ghost use Rattle.std.specs.Prelude.{◌≡◌};
ghost use Rattle.hexadecimal.specs.Text.{Decodes, Encodes};

mod digit;
mod pairs;

// Why a line was not read.
#[derive(Clone, Copy, Debug, PartialEq, Eq)]
pub enum DecodeError {
    // It is not made of digit pairs.
    NotPairs,
    // It is, and the output is too short for its bytes.
    NoRoom,
}

// The bytes that the line stands for, at the front of the output; how many. Nothing is written of a line that is not read.
#[tactic(auto, unfolding(crate::specs::Text::bytes_within, crate::specs::Text::bytes_of))]
pub fn decode(line: &[u8], out: &mut [u8]) -> Result<usize, DecodeError>
    ensures { Decodes line.now out.old out.new result }
{
    if line.len() % 2 != 0 || !pairs::all_digits(line) {
        return Err(DecodeError::NotPairs);
    }
    let length = line.len() / 2;
    if out.len() < length {
        return Err(DecodeError::NoRoom);
    }
    pairs::write_bytes(line, out);
    Ok(length)
}

// The text of the bytes, at the front of the output; how long it is. Nothing is written where the output is too short.
pub fn encode(bytes: &[u8], out: &mut [u8]) -> Option<usize>
    ensures { Encodes bytes.now out.old out.new result }
{
    if out.len() / 2 < bytes.len() {
        return None;
    }
    pairs::write_text(bytes, out);
    Some(bytes.len() * 2)
}
