// The first record.
ghost use Rattle.std.specs.Prelude.{◌≡◌, drop};
ghost use Rattle.cpupri.specs.Found.{size_fits};
ghost use Rattle.rules.specs.WellFormed.{slice_fits};
ghost use Rattle.recording.specs.Reading.{sized, unnamed, named, first_of};
ghost use Rattle.decoding.specs.Sizes.{size_in, slice_in};

use super::number::two;
use cpupri::record::CPUS;
use recording::{Ending, Opening};
use rules::task::LONGEST_SLICE;

// The first record's kinds: N; N and the full slice.
const PLAIN: u8 = 0;

const SLICED: u8 = 12;

// The full slice where none is named.
pub const RECORDED_SLICE: u16 = 100;

// N and the full slice, and the place behind them; or how a recording without them ends: cut, or stopped.
pub fn first_of(bytes: &[u8]) -> Result<Opening, Ending>
    ensures { result ≡ first_of bytes.now }
{
    if bytes.len() == 0 {
        return Err(Ending::Cut);
    }
    let kind = bytes[0];
    if kind == PLAIN {
        return plain(bytes);
    }
    if kind == SLICED {
        return sliced(bytes);
    }
    Err(Ending::Stopped)
}

// Behind the kind: N.
fn plain(bytes: &[u8]) -> Result<Opening, Ending>
    ensures { result ≡ sized (drop 1 bytes.now) unnamed }
{
    let n = size(bytes)?;
    Ok(Opening {
        n,
        full: RECORDED_SLICE,
        end: 2,
    })
}

// Behind the kind: N, and the full slice. A bad N is seen before whether a slice is there.
fn sliced(bytes: &[u8]) -> Result<Opening, Ending>
    ensures { result ≡ sized (drop 1 bytes.now) named }
{
    let n = size(bytes)?;
    let full = slice(bytes)?;
    Ok(Opening { n, full, end: 4 })
}

// N.
fn size(bytes: &[u8]) -> Result<usize, Ending>
    ensures { result ≡ size_in (drop 1 bytes.now) }
{
    if bytes.len() < 2 {
        return Err(Ending::Cut);
    }
    let n = bytes[1] as usize;
    if size_fits(n) {
        Ok(n)
    } else {
        Err(Ending::Stopped)
    }
}

// The full slice behind N.
fn slice(bytes: &[u8]) -> Result<u16, Ending>
    ensures { result ≡ slice_in (drop 2 bytes.now) }
{
    if bytes.len() < 4 {
        return Err(Ending::Cut);
    }
    let full = two(bytes, 2);
    if slice_fits(full) {
        Ok(full as u16)
    } else {
        Err(Ending::Stopped)
    }
}

fn size_fits(n: usize) -> bool
    ensures { result ≡ size_fits n }
{
    (0 < n) & (n <= CPUS)
}

fn slice_fits(full: u64) -> bool
    ensures { result ≡ slice_fits full }
{
    (1 <= full) & (full <= LONGEST_SLICE as u64)
}
