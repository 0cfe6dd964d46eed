// Bytes of the input taken one after the other: a line end has the line before it answered, any other byte is kept.
ghost use Rattle.std.specs.Prelude.{◌≡◌, [], ◌+◌, ◌≤◌, length};
ghost use Rattle.explain.specs.Lines.{progress, with_byte, with_bytes};
ghost use Rattle.explain.specs.CallContracts.{block, out_bytes, most_said, Puts, Ends, Takes};

use crate::limits::{MOST_KEPT, OUT_BYTES};
use crate::reply;
use frame::limits::MOST_REPLY;
use line_io::{Buffer, LINE_FEED};

// The characters that are kept of the unfinished line.
pub type Line = Buffer<MOST_KEPT>;

// The replies to lines, each with a line end.
pub type Output = Buffer<OUT_BYTES>;

// Puts the reply to a line and a line end behind what is in the output.
fn answer(line: &[u8], out: &mut Output)
    requires { length out.old + most_said ≤ out_bytes }
    ensures { Puts line.now out.old out.new }
{
    let mut text = [0u8; MOST_REPLY];
    let length = reply::reply(line, &mut text);
    out.append(&text[..length]);
    out.push(LINE_FEED);
}

// One byte; a line over the limit stays over it without the bytes that have no room.
#[tactic(auto, using(crate::proofs::LineWays::byte_ways))]
fn take_byte(byte: u8, line: &mut Line, out: &mut Output)
    requires { length out.old + most_said ≤ out_bytes }
    ensures { Takes (with_byte (progress out.old line.old) byte) line.new out.new (length out.old) 1 }
{
    if byte == LINE_FEED {
        answer(line.as_slice(), out);
        line.clear();
    } else {
        line.push(byte);
    }
}

// Bytes of a read, in order.
pub fn take_bytes(bytes: &[u8], line: &mut Line, out: &mut Output)
    requires { (length bytes.now ≤ block) × (out.old ≡ []) }
    ensures { Takes (with_bytes (progress [] line.old) bytes.now) line.new out.new 0 (length bytes.now) }
{
    for byte in bytes {
        take_byte(*byte, line, out);
    }
}

// At the end of the input, a last line without line end is answered.
#[tactic(auto, using(crate::proofs::ReadWays::finish_ways))]
pub fn finish(line: &mut Line, out: &mut Output)
    requires { out.old ≡ [] }
    ensures { Ends line.old line.new out.new }
{
    if !line.as_slice().is_empty() {
        answer(line.as_slice(), out);
    }
    line.clear();
}
