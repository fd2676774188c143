//! The program `inquiry` again, on another stored session; session.txt has it in words.
#![tactic(auto)]

use inquire::inquiry::inquiry;
use std::io;

fn main(rt: HostRuntime) -> io::Result<()> {
    inquiry(&rt)
}
