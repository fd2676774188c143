//! The program `account`: a session on the standard streams, `--help`, and an error for any other
//! argument.
use crate::refuse::refuse;
use crate::run;
use std::{env, io};

const HELP: &str = "\
Keeps the account of 2 to 8 balance groups for one control area.

usage: account < FRAMES

It reads frames from standard input: a letter, a length of four bytes with the
high byte first, and a body of that length.

    R  a rule form, once and first
    O  an opening form, once and after the rule
    S  a message of a group
    A  an advance to the next phase, with an empty body
    C  a closing form, which ends the day

It prints one line for each frame, or for a close one line for each group:

    OK                       accepted
    OK COUNT FIRST           a message; quarter hours beyond the limit, the first
    DAY GROUP MARK STAGE PENALTY BALANCE
                             a close
    REFUSED LEVEL NUMBER SERIES QUARTER
                             nothing has changed; the next frame is taken
    STOP                     the frame was out of turn, cut short, too long, of no known
                             letter, an A with a body, or for 9 to 16 groups; the
                             session ends

docs/FORMS.md has the bytes of each form, docs/REFUSALS.md the numbers.
";

const NO_ARGUMENTS: &str =
    "account: it takes no arguments; the session comes on standard input. Try: account --help";

/// The program on the standard streams. It takes no arguments but `--help`.
pub fn account(rt: &HostRuntime) -> io::Result<()> {
    let Ok(mut arguments) = env::args(rt) else {
        return refuse(rt, NO_ARGUMENTS);
    };
    match arguments.nth(1) {
        None => run(rt),
        Some(first) if first.as_str() == "--help" => rt.print(HELP),
        Some(_) => refuse(rt, NO_ARGUMENTS),
    }
}
