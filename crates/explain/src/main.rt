// Explains sheets at the desk: reads a sheet's frame a line from standard input, in hexadecimal, and writes to standard output
// why the sheet is refused.
#![tactic(auto)]

ghost use Rattle.std.specs.Prelude.{◌≡◌, ◌≤◌, [], length, IfOk, is_err};
ghost use Rattle.explain.specs.Lines.{after_read};
ghost use Rattle.explain.specs.CallContracts.{block, given, Steps, Turns, Runs};

use limits::BLOCK;
use line_io::Buffer;
use lines::{Line, Output};
use std::io;
use std::io::{Print, Read, Stdin, Stdout};

mod limits;
mod lines;
mod reply;

// What a read gave is taken; whether to go on. Where it failed, the unfinished line is not complete and is not run; where it gave
// nothing, the input has ended and that line is the last one.
fn take_read(read: io::Result<usize>, buf: &[u8], line: &mut Line, out: &mut Output) -> bool
    requires { IfOk read (λ count. count ≤ length buf.now) × (length buf.now ≡ block) × (out.old ≡ []) }
    ensures { Steps (after_read (is_err read) line.old (given read buf.now)) line.new out.new result }
{
    match read {
        Ok(0) => {
            lines::finish(line, out);
            false
        }
        Ok(count) => {
            lines::take_bytes(&buf[..count], line, out);
            true
        }
        Err(_) => {
            line.clear();
            false
        }
    }
}

// One read, and the replies to the lines that it ends, written out; whether to go on.
fn turn(mut stdin: Stdin, stdout: Stdout, buf: &mut [u8], line: &mut Line, out: &mut Output) -> bool
    requires { length buf.old ≡ block }
    ensures { Turns line.old line.new out.new result }
{
    out.clear();
    let read = stdin.read(buf);
    let go = take_read(read, buf, line, out);
    go & stdout.write_all(out.as_slice()).is_ok()
}

// Lines are taken until the input ends. A proved loop has to end, and nothing says that the input does, so the turns are counted.
// Whether a turn would follow.
fn run(stdin: Stdin, stdout: Stdout, buf: &mut [u8], line: &mut Line, out: &mut Output) -> bool
    requires { (length buf.old ≡ block) × (line.old ≡ []) × (out.old ≡ []) }
    ensures { Runs line.new out.new result }
{
    for _turn in 0..u64::MAX {
        if !turn(stdin, stdout, buf, line, out) {
            return false;
        }
    }
    true
}

fn main(rt: HostRuntime) {
    let mut buf = [0u8; BLOCK];
    let mut line = Buffer::new();
    let mut out = Buffer::new();
    run(rt.stdin(), rt.stdout(), &mut buf, &mut line, &mut out);
}
