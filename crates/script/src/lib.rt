// Runs a script: what a line asks for is done through the library, and the line is printed with what is answered. The cases of a
// program are its standard input, so that another case needs no proof.
//
//     fresh, N 2, slice 100              a fresh machine of 2 CPUs with a full slice of 100 ticks
//     default, N 2                       the same by the maker that is told no full slice
//     add 0, 1, 50, 3                    an event: who, a, b and mask; so with remove, wake, sleep, priority, mask,
//                                        tick, yield and ordinary
//     kind 10 0, 0, 0, 0                 an event of any kind: CPU 0 goes offline
//     check                              the check of the tables
//     let slice (5) of 0 be 2            one number of a table changed; (1) is the states, (3) the priorities,
//                                        (4) the CPUs, (5) the slices, (9) the flags, (10) the online mask
//     give CPU 0 task 0, priority 90, mask 3    a task runs there, without an event
//     next calls lend 2 rows             and as many counts and flags
//     hand in slice 50                   the next calls have another full slice
//     # words                            for the reader of the script alone
//
// Any other line is a title.
#![tactic(auto)]

ghost use Rattle.std.specs.Prelude.{◌≤◌, IfOk, length};

mod line;
mod tables;

use line::{Numbers, small, word};
use plans::event::Event;
use rules::answer::{ACCEPTED, Refusal};
use rules::log::ENTRY;
use std::io;
use std::io::{Read, Write};
use tables::Tables;

const ADD: u32 = 1;

// The script on standard input: its first 65536 bytes. A read or a write that fails ends it with that error.
pub fn run(rt: &(impl Input + Print)) -> io::Result<()> {
    let mut text = [0u8; 65536];
    let length = filled(&mut rt.reader(), &mut text)?;
    lines(&mut io::writer(rt), &text[..length])
}

// How much of the text was read: all of it, unless the input ended before.
fn filled<R: Read>(input: &mut R, text: &mut [u8]) -> io::Result<usize>
    ensures { IfOk result (λ n. n ≤ length text.new) }
{
    let mut done = 0;
    // reads until the input ends, however much each gives
    while done < text.len() {
        let n = input.read(&mut text[done..])?;
        if n == 0 {
            break;
        }
        done += n;
    }
    Ok(done)
}

// Line after line.
fn lines<W: Write>(out: &mut W, text: &[u8]) -> io::Result<()> {
    let mut tables = Tables::new();
    for line in text.split_inclusive(|byte| *byte == b'\n') {
        let line = line.strip_suffix(b"\n").unwrap_or(line);
        let first = line.first().copied().unwrap_or(b'\n');
        // a line for the reader of the script alone
        if first != b'#' {
            print::text(out, line)?;
            done(out, &mut tables, first, Numbers::read(line))?;
        }
    }
    Ok(())
}

// What a line asks for, with its answer printed.
fn done<W: Write>(out: &mut W, tables: &mut Tables, first: u8, x: Numbers) -> io::Result<()> {
    match first {
        b'f' => return made(out, tables, small(x.d), Some(word(x.e))),
        b'd' => return made(out, tables, small(x.e), None),
        b'c' => return print::answer(out, number(tables.check())),
        b'a' | b'k' | b'm' | b'o' | b'p' | b'r' | b's' | b't' | b'w' | b'y' => {
            return asked(out, tables, event(first, x));
        }
        b'h' => tables.full = word(x.e),
        b'l' => tables.put(x.c, x.d, x.e),
        b'g' => tables.give(x.b, x.c, x.d, x.e),
        b'n' => tables.lent = small(x.e),
        _ => {}
    }
    print::text(out, b"\n")
}

// A fresh machine, with the maker's answer.
fn made<W: Write>(out: &mut W, tables: &mut Tables, n: u8, ticks: Option<u32>) -> io::Result<()> {
    let answer = tables.make(n, ticks);
    print::made(out, number(answer), tables.full)
}

// 0, or the refusal's number.
fn number<T: Copy>(answer: Result<T, Refusal>) -> u8 {
    match answer {
        Ok(_) => ACCEPTED,
        Err(refusal) => refusal.number(),
    }
}

// The event of a line: its last four numbers; an event by its kind has that before them.
fn event(first: u8, x: Numbers) -> Event {
    let kind = match first {
        b'a' => ADD,
        b'r' => 2,
        b'w' => 3,
        b's' => 4,
        b'p' => 5,
        b'm' => 6,
        b't' => 7,
        b'y' => 8,
        b'o' => 9,
        _ => word(x.a),
    };
    Event {
        kind,
        who: word(x.b),
        a: word(x.c),
        b: word(x.d),
        mask: x.e,
    }
}

// An event with its answer, the log's entries, as many as there were moves, and the tables after it unless it was refused or an add.
fn asked<W: Write>(out: &mut W, tables: &mut Tables, event: Event) -> io::Result<()> {
    let answer = tables.event(event);
    let moves = answer.unwrap_or(0);
    print::answered(out, number(answer), moves)?;
    for entry in tables.log.chunks(ENTRY).take(moves as usize) {
        print::tuple(out, entry)?;
    }
    print::text(out, b"\n")?;
    if answer.is_ok() && event.kind != ADD {
        shown(out, tables)?;
    }
    Ok(())
}

// The rows, counts and levels of the CPUs, and the tasks.
fn shown<W: Write>(out: &mut W, t: &Tables) -> io::Result<()> {
    print::rows(out, t.n, &t.rows, &t.counts)?;
    print::counts(out, t.n, &t.counts)?;
    print::levels(out, t.n, &t.record.levels)?;
    print::tasks(out, &t.state, &t.cpu, &t.slice)
}
