//! The program `account` again, on another stored session; compare/sessions/refused.txt has it in words.
#![tactic(auto)]

use serve::account::account;
use std::io;

fn main(rt: HostRuntime) -> io::Result<()> {
    account(&rt)
}
