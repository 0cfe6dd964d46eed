// The reply to a line: why its sheet is refused. The output has room for every answer, so a line never meets 10.
ghost use Rattle.std.specs.Prelude.{◌≤◌, length};
ghost use Rattle.frame.specs.Lines.{most_characters};
ghost use Rattle.frame.specs.CallContracts.{most_reply};
ghost use Rattle.explain.specs.Replies.{sheet_bytes, frame_bytes, line_bytes};
ghost use Rattle.explain.specs.CallContracts.{Says};

use expression::refusal::{ACCEPTED, Refusal};
use frame::limits;
use witness::limits::MOST_EXPLAINED;

// The kind of a frame that has a sheet, the only one there is here: an enum of one would be no plainer.
const SHEET: u8 = 1;

// The sheet of n operators, with the bytes after n.
fn reply_to_sheet(n: u8, bytes: &[u8], out: &mut [u8]) -> usize
    requires { most_reply ≤ length out.old }
    ensures { Says (sheet_bytes n bytes.now) out.old out.new result }
{
    let mut answer = [0u8; MOST_EXPLAINED];
    match witness::explain(n as u32, bytes, &mut answer) {
        Ok(length) => frame::write_reply(ACCEPTED, &answer[..length], out),
        Err(refusal) => frame::write_refusal(refusal, out),
    }
}

// A frame: the kind, n and the bytes after it.
fn reply_to_frame(bytes: &[u8], out: &mut [u8]) -> usize
    requires { most_reply ≤ length out.old }
    ensures { Says (frame_bytes bytes.now) out.old out.new result }
{
    match bytes {
        [kind, n, rest @ ..] if *kind == SHEET => reply_to_sheet(*n, rest, out),
        _ => frame::write_refusal(Refusal::Frame, out),
    }
}

// A line within the limit.
fn reply_within(line: &[u8], out: &mut [u8]) -> usize
    requires { (length line.now ≤ most_characters) × (most_reply ≤ length out.old) }
    ensures { Says (line_bytes line.now) out.old out.new result }
{
    let mut bytes = [0u8; limits::MOST_FRAME];
    let Ok(length) = hexadecimal::decode(line, &mut bytes) else {
        return frame::write_refusal(Refusal::Frame, out);
    };
    reply_to_frame(&bytes[0..length], out)
}

// The reply to a line, without line end, at the front of the output; how many characters it has.
pub fn reply(line: &[u8], out: &mut [u8]) -> usize
    requires { most_reply ≤ length out.old }
    ensures { Says (line_bytes line.now) out.old out.new result }
{
    if limits::MOST_CHARACTERS < line.len() {
        return frame::write_refusal(Refusal::Oversize, out);
    }
    reply_within(line, out)
}
