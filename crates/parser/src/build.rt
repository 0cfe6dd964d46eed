// Building a row into the record of its tree, from the left: operators wait until a later one closes them. The tokens are noted as they
// come, and what the notes lay out is written at the end.
ghost use Rattle.std.specs.Prelude.{◌≡◌, ◌≤◌, ◌<◌, length, get_or, take, false};
ghost use Rattle.expression.specs.Limits.{most_operators, most_tokens};
ghost use Rattle.expression.specs.Token.{closing};
ghost use Rattle.expression.specs.Checks.{record_bytes};
ghost use Rattle.sheet.specs.Layout.{operators_of, prefix_in};
ghost use Rattle.sheet.specs.Relation.{closes_in};
ghost use Rattle.parser.specs.Build.{built};
ghost use Rattle.parser.specs.Notes.{note, laid_out, Inside};
ghost use Rattle.parser.specs.Reading.{infix_in, ends, SomeWait, Closes, Takeable, Takes, Adds, Raisable, Frees, Buildable, Beginning, Reads, Held, IsHeld};

use crate::note::Note;
use expression::limits::MOST_TOKENS;
use expression::{limits, token};
use sheet::Sheet;
use std::marker::Model;

// Where c comes, the byte a of something that waits closes.
#[tactic(auto, unfolding(crate::specs::Reading::ends))]
fn closes_at(sheet: &Sheet, c: u8, a: u8) -> bool
    ensures { result ≡ ends (closes_in sheet.now) c a }
{
    a < limits::MOST_OPERATORS && (c == token::CLOSING || sheet.closes_before(a, c))
}

// Operator c is infix, if it is one at all.
#[tactic(auto, unfolding(crate::specs::Reading::infix_in))]
fn is_infix(sheet: &Sheet, c: u8) -> bool
    ensures { result ≡ infix_in sheet.now c }
{
    c < limits::MOST_OPERATORS && !sheet.is_prefix(c)
}

// What is held of a row while it is read from the left: the notes of the tokens so far, how many these are, and which is the first of the
// operand that was read last. Right before that one stands what waits nearest.
#[derive(Drop)]
pub struct Notes<'a> {
    words: &'a mut [Note],
    count: usize,
    first: usize,
}

impl<'a> Model for Notes<'a> {
    ghost Value = { Held };

    ghost view = { λ notes. record { words = notes.words.now; count = notes.count; first = notes.first } };

    ghost invariant = { λ notes. IsHeld (record { words = notes.words.now; count = notes.count; first = notes.first }) };
}

impl<'a> Notes<'a> {
    // A note more; the operand that was read last begins at `first`.
    fn push(&mut self, note: Note, first: usize)
        requires { (self.old.count < most_tokens) × (first ≤ self.old.count) }
        ensures { Adds note first self.old self.new }
    {
        let count = self.count;
        self.words[count] = note;
        self.count = count + 1;
        self.first = first;
    }

    // The note at a place.
    fn note_at(&self, at: usize) -> Note
        requires { at < most_tokens }
        ensures { result ≡ get_or self.now.words at 0 }
    {
        self.words[at]
    }

    // What closes where c comes joins the operand: the place where that then begins.
    fn close_waiting(&self, sheet: &Sheet, c: u8) -> usize
        requires { SomeWait (operators_of sheet.now) self.now.words self.now.first }
        ensures { Closes (operators_of sheet.now) (closes_in sheet.now) c self.now.words self.now.first result }
    {
        let mut first = self.first;
        // This goes back over whole operands, so it counts no index.
        while 0 < first {
            let before = first - 1;
            let nearest = self.note_at(before);
            if !closes_at(sheet, c, nearest.byte()) {
                return first;
            }
            first = before - nearest.back();
        }
        first
    }

    // A reading, an opening bracket or a prefix operator begins an operand; the latter two wait.
    fn take_operand(&mut self, c: u8)
        requires { self.old.count < most_tokens }
        ensures { Adds (note c 1 0) self.old.count self.old self.new }
    {
        let count = self.count;
        self.push(Note::new(c, 1, 0), count);
    }

    // A place is left free before the operand that begins at `first`, for the operator c that is noted.
    fn free_place(&mut self, c: u8, first: usize)
        requires { (self.old.count < most_tokens) × Raisable self.old first }
        ensures { Frees c first self.old self.new }
    {
        let back = self.count - first;
        self.words[first] = self.note_at(first).with_place();
        self.push(Note::new(c, 0, back), first);
    }

    // An infix operator comes: what closes before it is its left operand. It waits.
    fn take_operator(&mut self, sheet: &Sheet, c: u8)
        requires room { self.old.count < most_tokens }
        requires operator { (c < most_operators) × (prefix_in sheet.now c ≡ false) }
        requires takeable { Takeable (operators_of sheet.now) (closes_in sheet.now) c self.old }
        ensures { Takes (operators_of sheet.now) (closes_in sheet.now) c self.old self.new }
    {
        let first = self.close_waiting(sheet, c);
        self.free_place(c, first);
    }

    // A closing bracket comes: all that waits back to its opening one closes, and the operand begins there.
    fn take_closing(&mut self, sheet: &Sheet)
        requires { Takeable (operators_of sheet.now) (closes_in sheet.now) closing self.old }
        ensures { Takes (operators_of sheet.now) (closes_in sheet.now) closing self.old self.new }
    {
        let inside = self.close_waiting(sheet, token::CLOSING);
        self.first = inside - 1;
    }

    // The next token from the left is taken.
    fn take_token(&mut self, sheet: &Sheet, c: u8)
        requires { (self.old.count < most_tokens) × Takeable (operators_of sheet.now) (closes_in sheet.now) c self.old }
        ensures { Takes (operators_of sheet.now) (closes_in sheet.now) c self.old self.new }
    {
        if is_infix(sheet, c) {
            self.take_operator(sheet, c);
        } else if c == token::CLOSING {
            self.take_closing(sheet);
        } else {
            self.take_operand(c);
        }
    }

    // The tokens of a row, or of a beginning of one, are taken from the left. What waits at the end of a row closes there, which changes no note.
    fn of_row(sheet: &Sheet, row: &[u8], words: &'a mut [Note]) -> Self
        requires full { length words.old ≡ most_tokens }
        requires beginning { (length row.now ≤ most_tokens) × Beginning (operators_of sheet.now) (closes_in sheet.now) row.now }
        ensures { Reads (operators_of sheet.now) (closes_in sheet.now) row.now result }
    {
        let mut notes = Notes {
            words: words,
            count: 0,
            first: 0,
        };
        for token in row {
            notes.take_token(sheet, *token);
        }
        notes
    }

    // The record that the notes lay out.
    fn lay_out(&self, out: &mut [u8])
        requires { (length out.old ≤ most_tokens) × (length out.old ≤ length self.now.words) × Inside (length out.old) (take (length out.old) self.now.words) 0 }
        ensures { out.new ≡ laid_out (take (length out.old) self.now.words) 0 out.old }
    {
        let mut at = 0;
        for i in 0..out.len() {
            let note = self.note_at(i);
            at += note.places();
            out[at - (note.back() + 1)] = note.byte();
        }
    }
}

// The record of the tree that is made of the row fills the output.
pub fn build_into(sheet: &Sheet, row: &[u8], out: &mut [u8])
    requires { (length row.now ≤ most_tokens) × (length out.old ≡ record_bytes row.now) × Buildable (operators_of sheet.now) (closes_in sheet.now) row.now }
    ensures { out.new ≡ built (operators_of sheet.now) (closes_in sheet.now) row.now }
{
    let mut words = [Note::NONE; MOST_TOKENS];
    let notes = Notes::of_row(sheet, row, &mut words);
    notes.lay_out(out);
}
