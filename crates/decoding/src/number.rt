// Numbers in bytes, low byte first.
ghost use Rattle.std.specs.Prelude.{◌≡◌, ◌+◌, ◌<◌, ◌≤◌, ◌^◌, length};
ghost use Rattle.recording.specs.Layout.{number};
ghost use Rattle.decoding.specs.Fields.{Wide};

fn one(bytes: &[u8], at: usize) -> u64
    requires { at < length bytes.now }
    ensures { (result ≡ number at 1 bytes.now) × (result < 2 ^ 8) }
{
    widened(bytes[at])
}

fn widened(byte: u8) -> u64
    ensures { (result ≡ byte) × (result < 2 ^ 8) }
{
    byte as u64
}

pub fn two(bytes: &[u8], at: usize) -> u64
    requires { at + 2 ≤ length bytes.now }
    ensures { (result ≡ number at 2 bytes.now) × (result < 2 ^ 16) }
{
    one(bytes, at) + 256 * one(bytes, at + 1)
}

pub fn four(bytes: &[u8], at: usize) -> u64
    requires { at + 4 ≤ length bytes.now }
    ensures { (result ≡ number at 4 bytes.now) × (result < 2 ^ 32) }
{
    two(bytes, at) + 65536 * two(bytes, at + 2)
}

fn eight(bytes: &[u8], at: usize) -> u64
    requires { at + 8 ≤ length bytes.now }
    ensures { result ≡ number at 8 bytes.now }
{
    four(bytes, at) + 4294967296 * four(bytes, at + 4)
}

// A number of up to two bytes.
pub fn narrow(bytes: &[u8], at: usize, w: usize) -> u32
    requires w_bound { w ≤ 2 }
    requires w_in_bounds { at + w ≤ length bytes.now }
    ensures { result ≡ number at w bytes.now }
{
    if w == 0 {
        return 0;
    }
    if w == 1 {
        return one(bytes, at) as u32;
    }
    two(bytes, at) as u32
}

// A number of eight bytes, or none.
pub fn wide(bytes: &[u8], at: usize, w: usize) -> u64
    requires wide { Wide w }
    requires w_in_bounds { at + w ≤ length bytes.now }
    ensures { result ≡ number at w bytes.now }
{
    if w == 0 {
        return 0;
    }
    eight(bytes, at)
}
