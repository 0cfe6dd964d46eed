// A count of operators, which is at most 32.
ghost use Rattle.std.specs.Prelude.{◌≤◌};
ghost use Rattle.expression.specs.Limits.{most_operators};

use expression::limits;

#[derive(Clone, Copy)]
pub struct Count {
    pub n: usize,
    ghost few: { n ≤ most_operators },
}

impl Count {
    pub const MOST: Count = Count {
        n: limits::MOST_OPERATORS as usize,
    };
}
