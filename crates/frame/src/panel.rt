// A panel, the calls of frames run on it, and the replies to lines.
ghost use Rattle.std.specs.Prelude.{◌≡◌, ◌*◌, ◌≤◌, length};
ghost use Rattle.expression.specs.Outcome.{number_in};
ghost use Rattle.record.specs.Outcome.{answer_of, judgement_of};
ghost use Rattle.frame.specs.Frames.{most_answer, call_of, frame_call};
ghost use Rattle.frame.specs.Lines.{most_characters};
ghost use Rattle.frame.specs.Kinds.{byte_of};
ghost use Rattle.frame.specs.CallContracts.{most_reply, Tells, TellsCount, Replies};

use crate::kind::Kind;
use crate::limits::{
    MOST_ANSWER, MOST_CHARACTERS, MOST_FRAME, MOST_REPLY, SHORT_FRAME, SHORT_LINE,
};
use crate::{write_number, write_refusal, write_reply};
use expression::refusal::{ACCEPTED, Refusal};
use places::Store;
use sheet::Sheet;

// A panel as it is lent: the sheet in force, the staged one and the places.
#[derive(Drop)]
pub struct Panel<'a> {
    pub sheet: &'a mut Sheet,
    pub staged: &'a mut Sheet,
    pub places: &'a mut Store,
}

// A call that answers no bytes.
fn done(outcome: Result<(), Refusal>) -> Result<usize, Refusal>
    ensures { answer_of result ≡ record { number = number_in outcome; length = 0 } }
{
    outcome?;
    Ok(0)
}

// A judgement: the count is the answer's one byte.
fn counted(outcome: Result<u8, Refusal>, answer: &mut [u8]) -> Result<usize, Refusal>
    requires { length answer.old ≡ most_answer }
    ensures { TellsCount (judgement_of outcome) answer.old answer.new (answer_of result) }
{
    answer[0] = outcome?;
    Ok(1)
}

impl Panel<'_> {
    ghost use Rattle.frame.specs.Lent.{memory_in, SameReferences};

    // The call of a kind and of the bytes after it.
    fn run_kind(&mut self, kind: Kind, rest: &[u8], answer: &mut [u8]) -> Result<usize, Refusal>
        requires { length answer.old ≡ most_answer }
        ensures told { Tells (memory_in self.old) (call_of (byte_of kind) rest.now) answer.old answer.new (memory_in self.new) (answer_of result) }
        ensures same { SameReferences self.old self.new }
    {
        match (kind, rest) {
            (Kind::Judge, record) => counted(monitor::judge(self.sheet, record), answer),
            (Kind::Repair, record) => monitor::repair(self.sheet, record, answer),
            (Kind::Switch, []) => done(monitor::switch(self.sheet, self.staged, self.places)),
            (Kind::Stage, [n, sheet @ ..]) => done(monitor::stage(
                self.staged,
                u32::from(*n),
                sheet,
            )),
            (Kind::PutRow, [place, row @ ..]) => {
                done(monitor::put_row(self.sheet, self.places, u32::from(*place), row))
            }
            (Kind::PutRecord, [place, record @ ..]) => {
                done(monitor::put_record(self.sheet, self.places, u32::from(*place), record))
            }
            (Kind::Drop, [place]) => done(monitor::drop_place(self.places, u32::from(*place))),
            (Kind::FetchRecord, [place]) => monitor::fetch_record(
                self.places,
                u32::from(*place),
                answer,
            ),
            (Kind::FetchRow, [place]) => monitor::fetch_row(
                self.sheet,
                self.places,
                u32::from(*place),
                answer,
            ),
            (Kind::Image, [place]) => monitor::image(self.places, u32::from(*place), answer),
            _ => Err(Refusal::Frame),
        }
    }

    // The call of a frame: its first byte is the kind.
    fn run_frame(&mut self, frame: &[u8], answer: &mut [u8]) -> Result<usize, Refusal>
        requires { length answer.old ≡ most_answer }
        ensures told { Tells (memory_in self.old) (frame_call frame.now) answer.old answer.new (memory_in self.new) (answer_of result) }
        ensures same { SameReferences self.old self.new }
    {
        let [byte, rest @ ..] = frame else {
            return Err(Refusal::Frame);
        };
        self.run_kind(Kind::try_from(*byte)?, rest, answer)
    }

    // The reply to a line within the limit, whose frame has N bytes at most.
    fn reply_within<const N: usize>(&mut self, line: &[u8], out: &mut [u8]) -> usize
        requires { (length line.now ≤ N * 2) × (N * 2 ≤ most_characters) × (most_reply ≤ length out.old) }
        ensures replied { Replies (memory_in self.old) line.now out.old out.new (memory_in self.new) result }
        ensures same { SameReferences self.old self.new }
    {
        let mut bytes = [0u8; N];
        let frame = &mut bytes[..];
        let mut answer = [0u8; MOST_ANSWER];
        let Ok(to) = hexadecimal::decode(line, frame) else {
            return write_refusal(Refusal::Frame, out);
        };
        match self.run_frame(&frame[0..to], &mut answer) {
            Ok(length) => write_reply(ACCEPTED, &answer[0..length], out),
            Err(refusal) => write_number(refusal.number(), out),
        }
    }

    // The reply to a line, without line end, at the front of `out`, which has room for the longest; how many characters it has.
    pub fn reply(&mut self, line: &[u8], out: &mut [u8; MOST_REPLY]) -> usize
        ensures replied { Replies (memory_in self.old) line.now out.old out.new (memory_in self.new) result }
        ensures same { SameReferences self.old self.new }
    {
        if MOST_CHARACTERS < line.len() {
            return write_refusal(Refusal::Oversize, out);
        }
        if line.len() <= SHORT_LINE {
            return self.reply_within::<SHORT_FRAME>(line, out);
        }
        self.reply_within::<MOST_FRAME>(line, out)
    }
}
