// The replies to lines, with line ends, collected in a buffer.
ghost use Rattle.std.specs.Prelude.{◌≡◌, [], ◌+◌, ◌≤◌, length};
ghost use Rattle.places.specs.Memory.{panel_in};
ghost use Rattle.frame.specs.Lent.{memory_in};
ghost use Rattle.panel.specs.CallContracts.{block, most_reply_line, Puts, Answers, Finishes};

use crate::input::Input;
use crate::limits::{BLOCK, MOST_FILLED};
use frame::limits::MOST_REPLY;
use frame::panel::Panel;
use line_io::{Buffer, LINE_FEED};

// Replies that are laid ready to be written.
pub type Output = Buffer<BLOCK>;

// Puts the reply to a line and a line end behind what is in the output, through the lent array.
fn answer(panel: &mut Panel<'_>, line: &[u8], reply: &mut [u8; MOST_REPLY], out: &mut Output)
    requires { length out.old + most_reply_line ≤ block }
    ensures { Puts (panel_in (memory_in panel.old)) line.now out.old out.new (panel_in (memory_in panel.new)) }
{
    let length = panel.reply(line, reply);
    let text = &reply[..];
    out.append(&text[..length]);
    out.push(LINE_FEED);
}

// Answers the complete lines of the input, as many as the output has room for: none only where there are none.
pub fn answer_lines(panel: &mut Panel<'_>, input: &mut Input, out: &mut Output)
    requires { out.old ≡ [] }
    ensures { Answers (panel_in (memory_in panel.old)) input.old out.new input.new (panel_in (memory_in panel.new)) }
{
    let mut reply = [0u8; MOST_REPLY];
    while out.len() <= MOST_FILLED
        && let Some(end) = line_io::line_end(input.as_slice(), 0)
    {
        let rest = input.as_slice();
        answer(panel, &rest[..end], &mut reply, out);
        input.skip(end + 1);
    }
}

// At the end of the input, the reply to a last line without line end.
pub fn finish(panel: &mut Panel<'_>, line: &[u8], out: &mut Output)
    requires { out.old ≡ [] }
    ensures { Finishes (panel_in (memory_in panel.old)) line.now out.new (panel_in (memory_in panel.new)) }
{
    if !line.is_empty() {
        let mut reply = [0u8; MOST_REPLY];
        answer(panel, line, &mut reply, out);
    }
}
