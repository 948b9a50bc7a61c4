// Bytes looked at eight at a time, as one number.
ghost use Rattle.std.specs.Prelude.{◌≡◌, true, ℕ, ◌+◌, ◌≤◌, ◌<◌, length, get_or};
ghost use Rattle.whole.specs.Whole.{same, invalid_from, number};

// Eight bytes from a place on as one number, lowest first.
fn eight(s: &[u8], at: usize) -> u64
    requires { at + 8 ≤ length s.now }
    ensures { result ≡ number s.now at 8 }
{
    u64::from_le_bytes([
        s[at],
        s[at + 1],
        s[at + 2],
        s[at + 3],
        s[at + 4],
        s[at + 5],
        s[at + 6],
        s[at + 7],
    ])
}

// Eight bytes are the same, if it says so.
pub fn alike(s: &[u8], at: usize) -> bool
    requires { at + 8 ≤ length s.now }
    ensures { result ≡ true → (i : ℕ) → i < 8 → get_or s.now (at + i) 0 ≡ get_or s.now at 0 }
{
    eight(s, at) == u64::from(s[at]) * 0x0101010101010101
}

// Whether two tables of one length hold the same. The last eight places may be looked at twice.
pub fn same_u8(a: &[u8], b: &[u8]) -> bool
    requires a_len { length a.now ≡ length b.now }
    requires in_bounds { 8 ≤ length b.now }
    ensures { result ≡ same a.now b.now }
{
    let last = b.len() - 8;
    let mut word = eight(a, last) ^ eight(b, last);
    for i in (0..last).step_by(8) {
        word |= eight(a, i) ^ eight(b, i);
    }
    word == 0
}

// Whether all places from `start` on hold INVALID, 255. The last eight may be looked at twice.
pub fn all_invalid(s: &[u8], start: usize, last: usize) -> bool
    requires { (start ≤ last) × (last + 8 ≡ length s.now) }
    ensures { result ≡ same s.now (invalid_from start s.now) }
{
    let mut word = eight(s, last) ^ u64::MAX;
    for i in (start..last).step_by(8) {
        word |= eight(s, i) ^ u64::MAX;
    }
    word == 0
}
