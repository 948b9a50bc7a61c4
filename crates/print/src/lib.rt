// What a script's programs print: an answer, and the tables. Each function writes to the writer that it is given, and hands on the error of a write
// that fails.
#![tactic(auto)]

use std::io;
use std::io::Write;

pub fn text<W: Write>(out: &mut W, words: &[u8]) -> io::Result<()> {
    out.write_all(words)
}

pub fn answer<W: Write>(out: &mut W, x: u8) -> io::Result<()> {
    writeln!(out, ": answer {x}")
}

// The answer to a maker, and the full slice that it handed back.
pub fn made<W: Write>(out: &mut W, answer: u8, slice: u32) -> io::Result<()> {
    writeln!(out, ": answer {answer}, slice {slice}")
}

// The answer to an event and the number of moves.
pub fn answered<W: Write>(out: &mut W, answer: u8, moves: u32) -> io::Result<()> {
    write!(out, ": answer {answer}, moves {moves}")
}

// Numbers that belong together, as those of a log entry.
pub fn tuple<W: Write>(out: &mut W, numbers: &[u16]) -> io::Result<()> {
    text(out, b" (")?;
    for (i, &x) in numbers.iter().enumerate() {
        listed(out, i, x)?;
    }
    text(out, b")")
}

// The number at place i, or `beyond` past the end.
fn at<T: Copy>(numbers: &[T], i: usize, beyond: T) -> T {
    match numbers.get(i) {
        Some(x) => *x,
        None => beyond,
    }
}

// The tasks of each row.
pub fn rows<W: Write>(out: &mut W, n: u8, rows: &[u16], counts: &[u16]) -> io::Result<()> {
    text(out, b"  rows")?;
    for c in 0..n {
        row(out, rows, c, at(counts, c as usize, 65535))?;
    }
    Ok(())
}

fn row<W: Write>(out: &mut W, rows: &[u16], c: u8, count: u16) -> io::Result<()> {
    text(out, b" [")?;
    for i in 0..512 {
        if i < count as usize {
            listed(out, i, at(rows, 512 * (c as usize) + i, 65535))?;
        }
    }
    text(out, b"]")
}

// Number i of a list.
fn listed<W: Write>(out: &mut W, i: usize, x: u16) -> io::Result<()> {
    if i != 0 {
        text(out, b",")?;
    }
    write!(out, "{x}")
}

pub fn counts<W: Write>(out: &mut W, n: u8, counts: &[u16]) -> io::Result<()> {
    text(out, b"; counts")?;
    for c in 0..n {
        write!(out, " {}", at(counts, c as usize, 65535))?;
    }
    Ok(())
}

pub fn levels<W: Write>(out: &mut W, n: u8, levels: &[u8; 64]) -> io::Result<()> {
    text(out, b"; levels")?;
    for c in 0..n {
        write!(out, " {}", at(levels, c as usize, 255))?;
    }
    text(out, b"\n")
}

// Of each task that is not free: its CPU and its slice.
pub fn tasks<W: Write>(out: &mut W, state: &[u8], cpu: &[u8], slice: &[u16]) -> io::Result<()> {
    for t in 0..512 {
        if at(state, t, 255) != 0 {
            writeln!(
                out,
                "  task {t}: CPU {}, slice {}",
                at(cpu, t, 255),
                at(slice, t, 65535)
            )?;
        }
    }
    Ok(())
}
