// The length of the longest answer, as in the specification's `Explaining`.

// The verdict, a row of seven tokens, two records of seven bytes.
pub const MOST_EXPLAINED: usize = 22;
