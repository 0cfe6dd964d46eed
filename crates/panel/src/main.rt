// Drives one panel from lines of hexadecimal: reads them from standard input and writes the reply to each to standard output.
#![tactic(auto)]

ghost use Rattle.std.specs.Prelude.{◌≡◌, [], false, length};
ghost use Rattle.places.specs.Memory.{panel_in};
ghost use Rattle.frame.specs.Lent.{memory_in};
ghost use Rattle.panel.specs.CallContracts.{AnswersRead, Hands};
ghost use Rattle.panel.specs.Runs.{is_full, handed_in, Steps, Turns, Runs};

use frame::panel::Panel;
use input::Input;
use limits::MOST_FILLED;
use line_io::Buffer;
use lines::Output;
use places::Store;
use sheet::Sheet;
use std::io;
use std::io::{Print, Stdin, Stdout};
use std::ops::ControlFlow;

mod input;
mod limits;
mod lines;

// What a read gave is answered, as many lines as the output has room for; whether to go on. Where it failed, the unfinished line is
// not complete and is not run; where it gave nothing, the input has ended and that line is the last one.
fn answer_read(
    read: io::Result<usize>,
    panel: &mut Panel<'_>,
    input: &mut Input,
    out: &mut Output,
) -> bool
    requires { out.old ≡ [] }
    ensures { AnswersRead (panel_in (memory_in panel.old)) input.old read out.new input.new result (panel_in (memory_in panel.new)) }
{
    match read {
        Ok(0) => {
            lines::finish(panel, input.as_slice(), out);
            false
        }
        Ok(_) => {
            lines::answer_lines(panel, input, out);
            true
        }
        Err(_) => false,
    }
}

// One read behind what is left, and the replies to the lines that it completes; whether to go on.
fn take_read(stdin: Stdin, panel: &mut Panel<'_>, input: &mut Input, out: &mut Output) -> bool
    requires { out.old ≡ [] }
    ensures { Steps
        (panel_in (memory_in panel.old))
        input.old false input.new out.new result
        (panel_in (memory_in panel.new)) }
{
    let read = input.read(stdin);
    answer_read(read, panel, input, out)
}

// The replies that are to be written next: where the output was full, to lines that are left in the input; else a read is made.
// Whether to go on.
fn step(
    stdin: Stdin,
    panel: &mut Panel<'_>,
    input: &mut Input,
    out: &mut Output,
    handed: usize,
) -> bool
    ensures { Steps
        (panel_in (memory_in panel.old))
        input.old (is_full handed) input.new out.new result
        (panel_in (memory_in panel.new)) }
{
    out.clear();
    if MOST_FILLED < handed {
        lines::answer_lines(panel, input, out);
        return true;
    }
    take_read(stdin, panel, input, out)
}

// Hands bytes to the write call: how many, and whether to go on. What that call does with them is in no contract.
fn write_out(stdout: Stdout, bytes: &[u8]) -> ControlFlow<usize, usize>
    ensures { Hands bytes.now (handed_in result) }
{
    match stdout.write_all(bytes) {
        Ok(()) => ControlFlow::Continue(bytes.len()),
        Err(_) => ControlFlow::Break(bytes.len()),
    }
}

// One filling of the output, written out: how many bytes were handed to the write call, and whether a turn follows.
fn turn(
    stdin: Stdin,
    stdout: Stdout,
    panel: &mut Panel<'_>,
    input: &mut Input,
    out: &mut Output,
    handed: usize,
) -> ControlFlow<usize, usize>
    ensures { Turns
        (panel_in (memory_in panel.old))
        input.old (is_full handed) input.new out.new result
        (panel_in (memory_in panel.new)) }
{
    let go = step(stdin, panel, input, out, handed);
    let count = write_out(stdout, out.as_slice())?;
    if go {
        ControlFlow::Continue(count)
    } else {
        ControlFlow::Break(count)
    }
}

// Turns are made until the input ends. A proved loop has to end, and nothing says that the input does, so the turns are counted.
fn run(
    stdin: Stdin,
    stdout: Stdout,
    panel: &mut Panel<'_>,
    input: &mut Input,
    out: &mut Output,
) -> ControlFlow<usize, usize>
    requires { (input.old ≡ []) × (out.old ≡ []) }
    ensures { Runs
        (panel_in (memory_in panel.old))
        input.new out.new result
        (panel_in (memory_in panel.new)) }
{
    let mut handed = 0;
    for _turn in 0..u64::MAX {
        handed = turn(stdin, stdout, panel, input, out, handed)?;
    }
    ControlFlow::Continue(handed)
}

fn main(rt: HostRuntime) {
    let mut sheet = Sheet::fresh();
    let mut staged = Sheet::fresh();
    let mut places = Store::fresh();
    let mut panel = Panel {
        sheet: &mut sheet,
        staged: &mut staged,
        places: &mut places,
    };
    let mut input = Input::new();
    let mut out = Buffer::new();
    let _ = run(rt.stdin(), rt.stdout(), &mut panel, &mut input, &mut out);
}
