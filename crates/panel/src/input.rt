// The bytes that are read and not answered yet, in the buffer that they are read into.
ghost use Rattle.std.specs.Prelude.{◌≡◌, [], ◌≤◌, length, drop};
ghost use Rattle.panel.specs.CallContracts.{Fetches};

use crate::limits::{BLOCK, BUFFER_BYTES, MOST_KEPT};
use std::io;
use std::io::{Read, Stdin};
use std::marker::Model;

// They stand from `rest` up to `to`.
#[derive(Drop)]
pub struct Input {
    bytes: [u8; BUFFER_BYTES],
    rest: usize,
    to: usize,
}

impl Model for Input {
    ghost use Rattle.std.specs.Prelude.{List, ℕ, ◌≤◌, take, drop};
    ghost use Rattle.panel.specs.Sizes.{buffer_bytes};

    ghost Value = { List ℕ };

    ghost view = { λ input. drop input.rest (take input.to input.bytes) };

    ghost invariant = { λ input. (input.rest ≤ input.to) × (input.to ≤ buffer_bytes) };
}

impl Input {
    pub fn new() -> Self
        ensures { result ≡ [] }
    {
        Input {
            bytes: [0; BUFFER_BYTES],
            rest: 0,
            to: 0,
        }
    }

    pub fn as_slice(&self) -> &[u8]
        ensures { result.now ≡ self.now }
    {
        let all = &self.bytes[..];
        &all[self.rest..self.to]
    }

    pub fn clear(&mut self)
        ensures { self.new ≡ [] }
    {
        self.rest = 0;
        self.to = 0;
    }

    // The first bytes are answered.
    pub fn skip(&mut self, count: usize)
        requires { count ≤ length self.old }
        ensures { self.new ≡ drop count self.old }
    {
        self.rest += count;
    }

    // One read, behind the unfinished line; of a line over the limit the first characters are kept. How many bytes it gave: none at
    // the end of the input.
    pub fn read(&mut self, mut stdin: Stdin) -> io::Result<usize>
        ensures { Fetches self.old self.new result }
    {
        let to = self.to.min(self.rest + MOST_KEPT);
        let kept = to - self.rest;
        let all = &mut self.bytes[..];
        line_io::move_to_front(all, self.rest, to);
        self.rest = 0;
        self.to = kept;
        let end = kept + BLOCK;
        match stdin.read(&mut all[kept..end]) {
            Ok(count) => {
                self.to = kept + count;
                Ok(count)
            }
            Err(error) => Err(error),
        }
    }
}
