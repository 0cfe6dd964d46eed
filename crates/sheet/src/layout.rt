// The words of a lent sheet, as in the specification's `Layout`: the relation's, the count of operators, the prefix operators, the mark of a loaded sheet, and one set aside.
use expression::limits::MOST_OPERATORS;

pub const COUNT_WORD: usize = MOST_OPERATORS as usize;

pub const PREFIX_WORD: usize = COUNT_WORD + 1;

pub const LOADED_WORD: usize = PREFIX_WORD + 1;

pub const SHEET_WORDS: usize = relation::layout::SHEET_WORDS;
