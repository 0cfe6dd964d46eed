// The numbers below n, tested one after the other from 0 up.
ghost use Rattle.std.specs.Prelude.{◌≡◌, ℕ, Bool, ◌<◌, Option, is_some, MatchOption, IfSome};
ghost use Rattle.disambiguation.specs.Below.{all_below, first_below};
ghost use Rattle.relation.specs.Words.{word_where};

use crate::count::Count;
use crate::words;

// All pass the test.
pub fn all<F: Fn(usize) -> bool>(n: usize, test: F) -> bool
    requires { (a : ℕ) → a < n → F.pre test a }
    ensures { (p : ℕ → Bool) → ((a : ℕ) (r : Bool) → a < n → F.post test a r → r ≡ p a) → result ≡ all_below n p }
{
    for a in 0..n {
        if !test(a) {
            return false;
        }
    }
    true
}

// The first of which the search finds something, and what it finds.
pub fn first<T, F: Fn(usize) -> Option<T>>(n: usize, search: F) -> Option<(usize, T)>
    requires { (a : ℕ) → a < n → F.pre search a }
    ensures first { (p : ℕ → Bool) → ((a : ℕ) (r : Option T) → a < n → F.post search a r → is_some r ≡ p a)
        → MatchOption result (first_below n p ≡ n) (λ found. found.0 ≡ first_below n p) }
    ensures found { IfSome result (λ found. (found.0 < n) × F.post search found.0 (Some found.1)) }
{
    for a in 0..n {
        if let Some(found) = search(a) {
            return Some((a, found));
        }
    }
    None
}

// The set of those that pass it.
pub fn set<F: Fn(usize) -> bool>(count: Count, test: F) -> u32
    requires { (a : ℕ) → a < count.n → F.pre test a }
    ensures { (p : ℕ → Bool) → ((a : ℕ) (r : Bool) → a < count.n → F.post test a r → r ≡ p a) → result ≡ word_where p count.n }
{
    let mut set = 0;
    for a in 0..count.n {
        set = words::with(set, a, test(a));
    }
    set
}
