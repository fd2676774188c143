//! The program `account`: a session on the standard streams. It names the theorem over whole
//! journals of calls.
#![tactic(auto)]

use journal::journals_are_sound;
use serve::account::account;
use std::io;

fn main(rt: HostRuntime) -> io::Result<()> {
    journals_are_sound();
    account(&rt)
}
