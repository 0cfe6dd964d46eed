// The counts and lengths of docs/REFERENCE.md, section 4, as in the specification's `Limits`.
pub const MOST_OPERATORS: u8 = 32;

pub const MOST_RULES: usize = 2048;

pub const BYTES_OF_RULE: usize = 3;

pub const MOST_RULE_BYTES: usize = BYTES_OF_RULE * MOST_RULES;

pub const MOST_TOKENS: usize = 255;

pub const MOST_RECORD_BYTES: usize = 255;
