// The value of a tree in a record, operands within operands.
ghost use Rattle.std.specs.Prelude.{◌<◌, get_or};
ghost use Rattle.expression.specs.Token.{first_reading};
ghost use Rattle.evaluator.specs.Walk.{Evaluable, Values, IsValue};

use crate::lent::Lent;
use expression::token;
use meanings::PrefixMeaning;

impl Lent<'_> {
    // The value of the tree at the place, which moves past it. This is compiled into the walk below, so a reading takes no call.
    #[cycle(walk)]
    fn value_at(&self, at: &mut usize) -> i32
        requires { Evaluable self.now.bytes.now self.now.meanings.now self.now.readings.now at.old }
        ensures { Values self.now.bytes.now self.now.meanings.now self.now.readings.now at.old at.new result }
    {
        let here = *at;
        let byte = self.bytes[here];
        if byte < token::FIRST_READING {
            return self.node_value(at);
        }
        *at = here + 1;
        self.readings[(byte - token::FIRST_READING) as usize]
    }

    // The same where no reading stands: a bracket, or an operator with its operands behind it, the left one first. The number of its meaning
    // tells which kind it is.
    #[cycle(walk)]
    fn node_value(&self, at: &mut usize) -> i32
        requires evaluable { Evaluable self.now.bytes.now self.now.meanings.now self.now.readings.now at.old }
        requires at_bound { get_or self.now.bytes.now at.old 0 < first_reading }
        ensures { Values self.now.bytes.now self.now.meanings.now self.now.readings.now at.old at.new result }
    {
        let here = *at;
        let byte = self.bytes[here];
        *at = here + 1;
        if byte == token::OPENING {
            return self.value_at(at);
        }
        let number = self.meanings[byte as usize];
        if let Ok(meaning) = PrefixMeaning::try_from(number) {
            let operand = self.value_at(at);
            return meaning.apply(operand);
        }
        let left = self.value_at(at);
        let right = self.value_at(at);
        meanings::apply(number, left, right)
    }

    // The value of the tree that the whole record is of.
    pub fn value(&self) -> i32
        requires { Evaluable self.now.bytes.now self.now.meanings.now self.now.readings.now 0 }
        ensures { IsValue self.now.bytes.now self.now.meanings.now self.now.readings.now result }
    {
        let first = self.bytes[0];
        if token::FIRST_READING <= first {
            return self.readings[(first - token::FIRST_READING) as usize];
        }
        let mut at = 0;
        self.node_value(&mut at)
    }
}
