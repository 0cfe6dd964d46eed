// The lengths of frames, answers and lines, as in the specification's `Lines` and `CallContracts`.
use expression::limits::{MOST_OPERATORS, MOST_RULE_BYTES};
use places::limits::IMAGE_BYTES;

// No answer of a line is longer than an image.
pub const MOST_ANSWER: usize = IMAGE_BYTES;

// The characters of the longest reply: the number and the longest answer, two a byte.
pub const MOST_REPLY: usize = 2 * (1 + MOST_ANSWER);

// The longest frame is a sheet's: its kind, n, the most kind bytes and the most rule bytes. A line of more than its characters is too long.
pub const MOST_FRAME: usize = 2 + MOST_OPERATORS as usize + MOST_RULE_BYTES;

pub const MOST_CHARACTERS: usize = 2 * MOST_FRAME;

// A frame of at most so many bytes is read into a small buffer: all but long sheets are.
pub const SHORT_FRAME: usize = 2 + MOST_ANSWER;

pub const SHORT_LINE: usize = 2 * SHORT_FRAME;
