// Document 01's marked examples K1 to K12. They are its standard input: crate `script` says how a line is read.
#![tactic(auto)]

use std::io;

fn main(rt: HostRuntime) -> io::Result<()> {
    script::run(&rt)
}
