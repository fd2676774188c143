//! The program `inquiry`: its arguments, the session of up to sixteen groups, and the table.
ghost use Rattle.std.specs.Prelude.{IsErr};

use crate::arguments::quarter_hour;
use crate::table::table;
use forms::bounds::MOST_GROUPS;
use serve::refuse::refuse;
use session::session::Session;
use std::io::{BufWriter, Write};
use std::{env, io};

const HELP: &str = "\
Runs a session of 2 to 16 balance groups and prints what the book answers then.

usage: inquiry [QUARTER_HOUR ..] < FRAMES

It reads the frames that account reads (account --help), and prints the lines
of the session. A table follows, if a book is open: for each QUARTER_HOUR, a
number from 0 to 65535, the positions and the trades of all groups

    POSITION QUARTER_HOUR GROUP STATED CONFIRMED NET
    TRADE QUARTER_HOUR SELLER BUYER POWER

then, for each day past its cut-off, the standings, and last the totals

    STANDING DAY GROUP MARK STAGE
    TOTAL GROUP PENALTIES BALANCE

Where the book refuses, REFUSED LEVEL NUMBER SERIES QUARTER stands in place of
the numbers.

example: inquiry 1 48 96 < my.frames

docs/INQUIRY.md has more, docs/FORMS.md the bytes of each form.
";

/// The program on the standard streams.
pub fn inquiry(rt: &HostRuntime) -> io::Result<()> {
    let Ok(arguments) = env::args(rt) else {
        return refuse_argument(rt, "(no text)");
    };
    let mut quarters = Vec::new(rt.alloc());
    for (place, argument) in arguments.enumerate().skip(1) {
        if place == 1 && argument.as_str() == "--help" {
            return rt.print(HELP);
        }
        let Some(quarter) = quarter_hour(argument.as_str()) else {
            return refuse_argument(rt, argument.as_str());
        };
        quarters.push(quarter)?;
    }
    let session = serve::run_for(rt, MOST_GROUPS as u8)?;
    print_table(rt, &session, &quarters)
}

fn print_table(rt: &HostRuntime, session: &Session, quarters: &[u16]) -> io::Result<()> {
    let lines = table(rt.alloc(), session, quarters)?;
    let mut output = BufWriter::new(rt.alloc(), rt.stdout())?;
    for line in &lines {
        writeln!(output, "{line}")?;
    }
    output.flush()
}

fn refuse_argument(rt: &HostRuntime, argument: &str) -> io::Result<()>
    ensures { IsErr result }
{
    refuse(
        rt,
        format_args!(
            "inquiry: no quarter hour: {argument}. Give numbers from 0 to 65535, or try: inquiry --help"
        ),
    )
}
