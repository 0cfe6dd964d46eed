// The word that a build notes of a token, as in the specification's `Notes`: its byte, the places by which the record grows with it, and
// the tokens that it goes back over. One word a token keeps the notes of a row in one array.
ghost use Rattle.std.specs.Prelude.{◌≡◌, ◌<◌, ◌≤◌, ℕ};
ghost use Rattle.expression.specs.Limits.{most_tokens};
ghost use Rattle.parser.specs.Notes.{note, raised, byte_in, places_in, back_in};

use std::marker::Model;

const PLACE: u32 = 0x100;

const MOST_PLACES: u32 = 0x100;

#[derive(Clone, Copy)]
pub struct Note {
    word: u32,
}

impl Model for Note {
    ghost Value = { ℕ };

    ghost view = { λ note. note.word };

    ghost inverse = { λ word. record { word = word } };
}

impl Note {
    // No token is noted.
    pub const NONE: Note = Note { word: 0 };

    // The note of a token with one place, or with none.
    #[tactic(auto, unfolding(crate::specs::Notes::note))]
    pub fn new(byte: u8, places: u32, back: usize) -> Self
        requires { (places ≤ 1) × (back ≤ most_tokens) }
        ensures { result ≡ note byte places back }
    {
        Note {
            word: byte as u32 + PLACE * (places + MOST_PLACES * back as u32),
        }
    }

    #[tactic(auto, unfolding(crate::specs::Notes::byte_in))]
    pub fn byte(self) -> u8
        ensures { result ≡ byte_in self }
    {
        (self.word % PLACE) as u8
    }

    #[tactic(auto, unfolding(crate::specs::Notes::places_in))]
    pub fn places(self) -> usize
        ensures { (result ≡ places_in self) × (result < 0x100) }
    {
        (self.word / PLACE % MOST_PLACES) as usize
    }

    #[tactic(auto, unfolding(crate::specs::Notes::back_in))]
    pub fn back(self) -> usize
        ensures { (result ≡ back_in self) × (result < 0x10000) }
    {
        (self.word / (PLACE * MOST_PLACES)) as usize
    }

    // A place more is left free before the token.
    pub fn with_place(self) -> Self
        requires { raised self < 0x100000000 }
        ensures { result ≡ raised self }
    {
        Note {
            word: self.word + PLACE,
        }
    }
}
