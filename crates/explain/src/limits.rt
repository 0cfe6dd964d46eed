// The lengths of the program's buffers, as in the specification's `CallContracts`.
use frame::limits;
use witness::limits::MOST_EXPLAINED;

// The bytes of a read.
pub const BLOCK: usize = 1024;

// Of an unfinished line over the limit so many characters are kept: it stays over it, whatever follows.
pub const MOST_KEPT: usize = limits::MOST_CHARACTERS + 1;

// The characters of the longest reply: the number and the longest answer, two a byte; and its line end.
pub const MOST_SAID: usize = 2 * (1 + MOST_EXPLAINED) + 1;

// The replies to a block, of whose bytes each may end a line, and the room that a reply is written into.
pub const OUT_BYTES: usize = MOST_SAID * BLOCK + limits::MOST_REPLY;
