// The lengths of the program's buffers, as in the specification's `CallContracts`.
use frame::limits;

// The bytes of a read, and of the replies that are collected before they are written out.
pub const BLOCK: usize = 65536;

// Of an unfinished line over the limit so many characters are kept: it stays over it, whatever follows.
pub const MOST_KEPT: usize = limits::MOST_CHARACTERS + 1;

// An unfinished line, and a block read behind it.
pub const BUFFER_BYTES: usize = MOST_KEPT + BLOCK;

// There is room for one more reply and its line end up to here.
pub const MOST_FILLED: usize = BLOCK - (limits::MOST_REPLY + 1);
