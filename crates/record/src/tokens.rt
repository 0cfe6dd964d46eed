// A row that a walk writes: as many tokens as a row has at most.
ghost use Rattle.std.specs.Prelude.{◌≡◌, ◌<◌, ◌≤◌, ◌+◌, ℕ, List, [], ◌∷◌, ◌++◌, length, take, MatchOption};
ghost use Rattle.expression.specs.Limits.{most_tokens};

use expression::limits::MOST_TOKENS;
use std::marker::Model;

#[derive(Drop)]
pub struct Tokens {
    bytes: [u8; MOST_TOKENS],
    length: usize,
}

impl Model for Tokens {
    ghost Value = { List ℕ };

    ghost view = { λ row. take row.length row.bytes };

    ghost invariant = { λ row. row.length ≤ most_tokens };
}

impl Tokens {
    // No tokens.
    pub fn new() -> Self
        ensures { result ≡ [] }
    {
        Tokens {
            bytes: [0; MOST_TOKENS],
            length: 0,
        }
    }

    // One more token, if there is room.
    pub fn push(&mut self, token: u8) -> Option<()>
        ensures { MatchOption result ((most_tokens ≤ length self.old) × (self.new ≡ self.old))
            (λ _. (length self.new ≤ most_tokens) × (self.new ≡ self.old ++ token ∷ [])) }
    {
        let at = self.length;
        if MOST_TOKENS <= at {
            return None;
        }
        self.bytes[at] = token;
        self.length = at + 1;
        Some(())
    }

    // Two more tokens, if there is room for both.
    pub fn push_two(&mut self, first: u8, second: u8) -> Option<()>
        ensures { MatchOption result ((most_tokens < length self.old + 2) × (self.new ≡ self.old))
            (λ _. (length self.new ≤ most_tokens) × (self.new ≡ self.old ++ first ∷ second ∷ [])) }
    {
        let at = self.length;
        if MOST_TOKENS - 1 <= at {
            return None;
        }
        self.bytes[at] = first;
        self.bytes[at + 1] = second;
        self.length = at + 2;
        Some(())
    }

    // The tokens.
    pub fn as_slice(&self) -> &[u8]
        ensures { result.now ≡ self.now }
    {
        &self.bytes[..self.length]
    }
}
