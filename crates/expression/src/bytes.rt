// Bytes copied, and tested one after the other.
ghost use Rattle.std.specs.Prelude.{◌≡◌, ℕ, Bool, ◌≤◌, ◌++◌, drop, length};
ghost use Rattle.expression.specs.Lists.{any_holds};

// The bytes, copied to the front of the others. By a loop, which becomes memcpy: the library's copy becomes memmove where both are lent, and the
// archive would want one symbol more of C.
pub fn copy(from: &[u8], to: &mut [u8])
    requires { length from.now ≤ length to.old }
    ensures { to.new ≡ from.now ++ drop (length from.now) to.old }
{
    for i in 0..from.len() {
        to[i] = from[i];
    }
}

// Some byte passes the test. All are tested, with no early end, so that they can be tested side by side.
pub fn any<F: Fn(u8) -> bool>(bytes: &[u8], test: F) -> bool
    requires { F.IsAlwaysCallable test }
    ensures { (p : ℕ → Bool) → ((c : ℕ) (r : Bool) → F.post test c r → r ≡ p c) → result ≡ any_holds p bytes.now }
{
    let mut found = false;
    for byte in bytes {
        found = found | test(*byte);
    }
    found
}
