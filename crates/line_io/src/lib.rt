// Lines in a buffer: where one ends, and the unfinished one moved to the front.
#![tactic(auto)]

ghost use Rattle.std.specs.Prelude.{◌≡◌, ◌==◌, position};
ghost use Rattle.std.specs.List.{position_or_len};
ghost use Rattle.line_io.specs.Lines.{has_end, Ends};
ghost use Rattle.line_io.specs.Moves.{moved_to_front};

mod buffer;

pub use buffer::Buffer;

pub const LINE_FEED: u8 = 10;

// How many bytes are tested at a time.
const STEP: usize = 32;

// Among the bytes there is a line end. None ends the test early, so that they are tested together.
fn has_end(bytes: &[u8]) -> bool
    ensures { result ≡ has_end bytes.now }
{
    bytes
        .iter()
        .fold(false, |found, c| found | (*c == LINE_FEED))
}

// The first step that has a line end.
fn first_step(steps: &[[u8; STEP]]) -> Option<usize>
    ensures { result ≡ position has_end steps.now }
{
    steps.iter().position(|step| has_end(step))
}

// The first line end among the bytes.
fn first_end(bytes: &[u8]) -> Option<usize>
    ensures { result ≡ position (λ c. c == 10) bytes.now }
{
    bytes.iter().position(|c| *c == LINE_FEED)
}

// The place of the first line end from a place on.
pub fn line_end(buf: &[u8], from: usize) -> Option<usize>
    ensures { Ends buf.now from result }
{
    let rest = buf.get(from..)?;
    let (steps, _) = rest.as_chunks::<STEP>();
    let skipped = first_step(steps).unwrap_or(steps.len()) * STEP;
    let more = first_end(&rest[skipped..])?;
    Some(from + skipped + more)
}

// The bytes from one place up to another, moved to the front; nothing where they are no part of the buffer.
pub fn move_to_front(buf: &mut [u8], from: usize, to: usize)
    ensures { buf.new ≡ moved_to_front from to buf.old }
{
    if from <= to && to <= buf.len() {
        buf.copy_within(from..to, 0);
    }
}
