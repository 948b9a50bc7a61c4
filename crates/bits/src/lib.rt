// 64-bit words as sets of numbers below 64, as kernel bitmaps are: test, set and clear a bit, the
// lowest set bit, and how many are set. Each function is one or two instructions.
#![tactic(auto)]

ghost use Rattle.std.specs.Prelude.{◌≡◌, ◌-◌, ◌%◌, ◌^◌, ◌≤◌, ◌<◌};
ghost use Rattle.bits.specs.Bit.{bit, with_bit, without_bit, put_bit, lowest, weight};

// Whether bit c of m is set.
pub fn test_bit(m: u64, c: usize) -> bool
    requires { c < 64 }
    ensures { result ≡ bit m c }
{
    (m >> c) & 1 == 1
}

// m with bit c set.
pub fn set_bit(m: u64, c: usize) -> u64
    requires { c < 64 }
    ensures { result ≡ with_bit m c }
{
    m | (1 << c)
}

// m with bit c clear.
pub fn clear_bit(m: u64, c: usize) -> u64
    requires { c < 64 }
    ensures { result ≡ without_bit m c }
{
    m & !(1 << c)
}

// m with bit c set if `on`, and clear if not.
pub fn put_bit(m: u64, c: usize, on: bool) -> u64
    requires { c < 64 }
    ensures { result ≡ put_bit on m c }
{
    if on { set_bit(m, c) } else { clear_bit(m, c) }
}

// The lowest set bit of m; 64 for 0.
pub fn lowest_bit(m: u64) -> u32
    ensures { result ≡ lowest 64 m }
{
    u64::trailing_zeros(m)
}

// m with its lowest set bit clear.
pub fn clear_lowest(m: u64) -> u64
    requires { 0 < m }
    ensures { result ≡ without_bit m (lowest 64 m) }
{
    m & (m - 1)
}

// How many bits of m are set.
pub fn count_bits(m: u64) -> u32
    ensures { result ≡ weight 64 m }
{
    u64::count_ones(m)
}

// The word whose bits below k are set.
pub fn all_below(k: usize) -> u64
    requires le_k { 1 ≤ k }
    requires k_bound { k ≤ 64 }
    ensures { result ≡ 2 ^ k - 1 }
{
    u64::MAX >> (64 - k)
}

// The bits of m below k.
pub fn low_bits(m: u64, k: usize) -> u64
    requires { k ≤ 64 }
    ensures { result ≡ m % 2 ^ k }
{
    if k == 64 {
        return m;
    }
    m & ((1 << k) - 1)
}
