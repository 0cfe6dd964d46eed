// The words of a table: one for each operator, with a bit for each that it is related to, and those that a lent sheet has besides.
use expression::limits::MOST_OPERATORS;

// What these tell is known to the crate `sheet`.
const OTHER_WORDS: usize = 4;

pub const SHEET_WORDS: usize = MOST_OPERATORS as usize + OTHER_WORDS;
