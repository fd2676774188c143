//! The program `inquiry` again, on a year in which stages climb through five tariff rows, fall and
//! climb again, and which goes on past its 366th close; compare/sessions/year.txt has it in words.
#![tactic(auto)]

use inquire::inquiry::inquiry;
use std::io;

fn main(rt: HostRuntime) -> io::Result<()> {
    inquiry(&rt)
}
