// Cases beyond the marked examples. They are its standard input: crate `script` says how a line is read.
#![tactic(auto)]

use std::io;

fn main(rt: HostRuntime) -> io::Result<()> {
    script::run(&rt)
}
