//! The program `inquiry`: a session on the standard streams, and then what its book answers.
#![tactic(auto)]

use inquire::inquiry::inquiry;
use std::io;

fn main(rt: HostRuntime) -> io::Result<()> {
    inquiry(&rt)
}
