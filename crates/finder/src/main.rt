// The lowest-priority search in use: records of 1, 3 and 64 CPUs, levels set, and what the finder
// answers to each question.
#![tactic(auto)]

ghost use Rattle.std.specs.Prelude.{◌<◌};

use cpupri::find::{Found, Lowest};
use cpupri::level::Level;
use cpupri::record::Record;
use refusal::Refusal;
use std::io;
use std::io::Write;

fn main(rt: HostRuntime) -> io::Result<()> {
    let mut out = io::writer(&rt);
    one_cpu(&mut out)?;
    three_cpus(&mut out)?;
    all_cpus(&mut out)
}

fn one_cpu<W: Write>(out: &mut W) -> io::Result<()> {
    let r = Record::fresh(1);
    ask(out, 1, r, 52, 1)?;
    ask(out, 1, r, 1, 1)?;
    ask(out, 1, r, 0, 1)?;
    ask(out, 0, r, 52, 1)?;
    ask(out, 65, r, 52, 1)?;
    ask(out, 2, r, 52, 1)?;
    ask(out, 1, r, 102, 1)?;
    ask(out, 1, r, 52, 0)?;
    ask(out, 1, r, 52, 2)
}

// CPU 0 runs priority 50, CPU 1 ordinary work, CPU 2 nothing; then CPU 2 goes to priority 99.
fn three_cpus<W: Write>(out: &mut W) -> io::Result<()> {
    let mut r = Record::fresh(3);
    r = r.set_level(0, Level::of_priority(50));
    r = r.set_level(1, Level::ORDINARY);
    ask(out, 3, r, 52, 7)?;
    ask(out, 3, r, 52, 3)?;
    ask(out, 3, r, 52, 1)?;
    ask(out, 3, r, 53, 1)?;
    ask(out, 3, r, 1, 2)?;
    r = r.set_level(2, Level::of_priority(99));
    ask(out, 3, r, 101, 7)?;
    ask(out, 3, r, 101, 4)?;
    r = r.set_level(2, Level::INVALID);
    ask(out, 2, r, 101, 3)?;
    ask(out, 3, r, 101, 7)
}

// CPU c runs priority 99 - c.
fn all_cpus<W: Write>(out: &mut W) -> io::Result<()> {
    let mut r = Record::fresh(64);
    for cpu in 0..64 {
        let priority = (99 - cpu) as u8;
        r = r.set_level(cpu, Level::of_priority(priority));
    }
    ask(out, 64, r, 101, 0xffff_ffff_ffff_ffff)?;
    ask(out, 64, r, 101, 0x0000_0000_ffff_fff0)?;
    ask(out, 64, r, 38, 0xffff_ffff_ffff_ffff)?;
    ask(out, 64, r, 39, 0xffff_ffff_ffff_ffff)?;
    ask(out, 63, r, 101, 1)
}

// One question and its answer on a line.
fn ask<W: Write>(out: &mut W, n: usize, r: Record, level: u32, mask: u64) -> io::Result<()> {
    write!(out, "N {n}, below level {level}, mask {mask}")?;
    answer(out, cpupri::find::find(n, r, level, mask))
}

fn answer<W: Write>(out: &mut W, found: Result<Found, Refusal>) -> io::Result<()> {
    match found {
        Ok(found) => {
            match found.lowest {
                Some(Lowest { level, mask }) => write!(out, ": level {level}, CPUs {mask}")?,
                None => write!(out, ": none")?,
            }
            writeln!(out, ", masks read {}", found.read)
        }
        Err(refusal) => writeln!(out, ": refused {}", refusal.number()),
    }
}
