// Lines of hexadecimal: one frame a line, and the reply to it. No answer is longer than an image, so a line never meets 10.
#![tactic(auto)]

ghost use Rattle.std.specs.Prelude.{◌≤◌, [], length};
ghost use Rattle.expression.specs.Outcome.{number_of};
ghost use Rattle.places.specs.Memory.{memory};
ghost use Rattle.frame.specs.Frames.{most_answer};
ghost use Rattle.frame.specs.CallContracts.{most_reply, Writes, Replies};

use expression::refusal::Refusal;
use limits::MOST_REPLY;
use panel::Panel;
use places::Store;
use sheet::Sheet;

mod kind;
pub mod limits;
pub mod panel;

// A number and an answer as text, at the front of the output; the length of the text.
pub fn write_reply(number: u8, answer: &[u8], out: &mut [u8]) -> usize
    requires { (most_reply ≤ length out.old) × (length answer.now ≤ most_answer) }
    ensures { Writes number answer.now out.old out.new result }
{
    let from = hexadecimal::encode(&[number], out).unwrap();
    let to = out.len();
    from + hexadecimal::encode(answer, &mut out[from..to]).unwrap()
}

// A number alone.
pub fn write_number(number: u8, out: &mut [u8]) -> usize
    requires { most_reply ≤ length out.old }
    ensures { Writes number [] out.old out.new result }
{
    write_reply(number, &[], out)
}

// A refusal's number alone.
pub fn write_refusal(refusal: Refusal, out: &mut [u8]) -> usize
    requires { most_reply ≤ length out.old }
    ensures { Writes (number_of refusal) [] out.old out.new result }
{
    write_number(refusal.number(), out)
}

// The reply to a line on a panel that is lent in its three parts, at the front of `out`; how many characters it has.
pub fn reply(
    sheet: &mut Sheet,
    staged: &mut Sheet,
    places: &mut Store,
    line: &[u8],
    out: &mut [u8; MOST_REPLY],
) -> usize
    ensures { Replies
        (memory sheet.old staged.old places.old)
        line.now out.old out.new
        (memory sheet.new staged.new places.new)
        result }
{
    let mut panel = Panel {
        sheet,
        staged,
        places,
    };
    panel.reply(line, out)
}
