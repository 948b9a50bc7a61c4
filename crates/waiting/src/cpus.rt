// The CPUs on which a task waits.
ghost use Rattle.std.specs.Prelude.{suc, ◌≤◌, ◌<◌, length};
ghost use Rattle.waiting.specs.Waiting.{NextWaiting, NobodyWaits};

use ranking::{BLOCK, any_in_block};

// The first CPU on which a task waits, if there is one. CPU 0 is asked by itself, which takes fewer instructions where many tasks
// wait.
pub fn first_waiting(counts: &[u16], n: usize) -> Option<usize>
    requires { (0 < n) × (n ≤ length counts.now) }
    ensures { NextWaiting counts.now 0 n result }
{
    if counts[0] >= 2 {
        return Some(0);
    }
    let from = first_block(counts, n);
    next_waiting(counts, from, n)
}

// Where the first block of CPUs starts that has a waiting task, or else those that are no whole block: nobody waits on the CPUs before.
fn first_block(counts: &[u16], n: usize) -> usize
    requires { n ≤ length counts.now }
    ensures { (result ≤ n) × NobodyWaits counts.now 0 result }
{
    let blocks = n / BLOCK;
    for block in 0..blocks {
        if any_in_block(counts, block * BLOCK, |count| count >= 2) {
            return block * BLOCK;
        }
    }
    blocks * BLOCK
}

// The first CPU on which a task waits, from the CPU `from` on.
pub fn next_waiting(counts: &[u16], from: usize, n: usize) -> Option<usize>
    requires { (from ≤ n) × (n ≤ length counts.now) }
    ensures { NextWaiting counts.now from n result }
{
    let mut next = from;
    // two at a step, by hand: a `for` over the pairs takes longer, up to half as long again where many of few CPUs have waiting tasks
    while 1 < n - next {
        if counts[next] >= 2 {
            return Some(next);
        }
        if counts[next + 1] >= 2 {
            return Some(next + 1);
        }
        next += 2;
    }
    last_waiting(counts, next, n)
}

// The same where at most one CPU is left.
fn last_waiting(counts: &[u16], at: usize, n: usize) -> Option<usize>
    requires { (at ≤ n) × (n ≤ suc at) × (n ≤ length counts.now) }
    ensures { NextWaiting counts.now at n result }
{
    if n <= at {
        return None;
    }
    if counts[at] >= 2 {
        return Some(at);
    }
    None
}
