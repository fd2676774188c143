//! The lines of the table.
ghost use Rattle.std.specs.Prelude.{Some};
ghost use Rattle.inquire.specs.Entries.{entry_of, text};

use crate::answer::{Answer, Marked, Positions, Totalled};
use book::answers::{Standing, Total};
use forms::fault::Fault;
use std::fmt;

/// A question and its answer. Groups, quarter hours and days count from 1.
#[derive(Clone, Copy)]
pub enum Line {
    /// Stated open position, confirmed open position and confirmed net purchases.
    Position {
        quarter: u16,
        group: u16,
        answer: Result<(i64, i64, i64), Fault>,
    },
    /// The confirmed trade from one group to another.
    Trade {
        quarter: u16,
        from: u16,
        to: u16,
        answer: Result<u32, Fault>,
    },
    Standing {
        day: u16,
        group: u16,
        answer: Result<Standing, Fault>,
    },
    Total {
        group: u16,
        answer: Result<Total, Fault>,
    },
}

impl fmt::Display for Line {
    ghost output = { λ l. Some (text (entry_of l)) };

    fn fmt<W: fmt::Write>(&self, f: &mut fmt::Formatter<W>) -> fmt::Result {
        match *self {
            Line::Position {
                quarter,
                group,
                answer,
            } => {
                let answer = Answer(answer.map(Positions));
                write!(f, "POSITION {quarter} {group} {answer}")
            }
            Line::Trade {
                quarter,
                from,
                to,
                answer,
            } => {
                let answer = Answer(answer);
                write!(f, "TRADE {quarter} {from} {to} {answer}")
            }
            Line::Standing { day, group, answer } => {
                let answer = Answer(answer.map(Marked));
                write!(f, "STANDING {day} {group} {answer}")
            }
            Line::Total { group, answer } => {
                let answer = Answer(answer.map(Totalled));
                write!(f, "TOTAL {group} {answer}")
            }
        }
    }
}
