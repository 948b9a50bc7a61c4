// Tables looked at whole: the places are collected, several at a time, and it is decided after.
ghost use Rattle.std.specs.Prelude.{◌≡◌, ◌≤◌, length, replicate};
ghost use Rattle.whole.specs.Whole.{same, invalid_from};

use levels::level::Level;

// Whether two tables of one length hold the same.
pub fn same_u64(a: &[u64], b: &[u64]) -> bool
    requires { length a.now ≡ length b.now }
    ensures { result ≡ same a.now b.now }
{
    let mut word = 0;
    // by the length of b, which at the callers is a table of our own: a constant where it is compiled
    for i in 0..b.len() {
        word |= a[i] ^ b[i];
    }
    word == 0
}

// Whether a table holds 0 only.
pub fn none_u64(a: &[u64]) -> bool
    ensures { result ≡ same a.now (replicate (length a.now) 0) }
{
    let mut word = 0;
    for x in a {
        word |= x;
    }
    word == 0
}

// Whether all places from `start` on hold INVALID.
pub fn each_invalid(a: &[u8], start: usize) -> bool
    requires { start ≤ length a.now }
    ensures { result ≡ same a.now (invalid_from start a.now) }
{
    let mut byte = 0;
    for level in &a[start..] {
        byte |= level ^ Level::INVALID.number;
    }
    byte == 0
}
