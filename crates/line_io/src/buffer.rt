// Bytes collected at the front of an array: fixed memory in the place of a growing vector.
ghost use Rattle.std.specs.Prelude.{◌≡◌, ◌+◌, ◌≤◌, ◌∷◌, [], ◌++◌, length, cond, ltb};

use std::marker::Model;

#[derive(Drop)]
pub struct Buffer<const N: usize> {
    bytes: [u8; N],
    filled: usize,
}

impl<const N: usize> Model for Buffer<N> {
    ghost use Rattle.std.specs.Prelude.{List, ℕ, ◌≤◌, take, length};

    ghost Value = { List ℕ };

    ghost view = { λ buffer. take buffer.filled buffer.bytes };

    ghost invariant = { λ buffer. buffer.filled ≤ length buffer.bytes };
}

impl<const N: usize> Buffer<N> {
    pub fn new() -> Self
        ensures { result ≡ [] }
    {
        Buffer {
            bytes: [0; N],
            filled: 0,
        }
    }

    pub fn as_slice(&self) -> &[u8]
        ensures same { result.now ≡ self.now }
        ensures short { length self.now ≤ N }
    {
        let all = &self.bytes[..];
        &all[..self.filled]
    }

    pub fn len(&self) -> usize
        ensures same { result ≡ length self.now }
        ensures short { result ≤ N }
    {
        self.filled
    }

    pub fn clear(&mut self)
        ensures { self.new ≡ [] }
    {
        self.filled = 0;
    }

    // One byte more; where there is no room, it is left out.
    pub fn push(&mut self, byte: u8)
        ensures { self.new ≡ cond (ltb (length self.old) N) (self.old ++ byte ∷ []) self.old }
    {
        if self.filled < N {
            self.bytes[self.filled] = byte;
            self.filled += 1;
        }
    }

    pub fn append(&mut self, bytes: &[u8])
        requires { length self.old + length bytes.now ≤ N }
        ensures { self.new ≡ self.old ++ bytes.now }
    {
        let from = self.filled;
        let to = from + bytes.len();
        let all = &mut self.bytes[..];
        all[from..to].copy_from_slice(bytes);
        self.filled = to;
    }
}
