//! What a frame is answered.
ghost use Rattle.session.specs.Replies.{line, told_by};
ghost use Rattle.std.specs.Prelude.{Some};

use book::answers::Submitted;
use forms::fault::Fault;
use std::fmt;

/// What a frame is answered: one line, or after a close one line for each result row.
#[derive(Clone, Copy)]
pub enum Reply {
    /// The session ends.
    Stop,
    Refused(Fault),
    /// Accepted, with nothing to tell.
    Done,
    /// An accepted message.
    Taken(Submitted),
    /// An accepted closing form: the session holds the rows.
    Closed,
}

/// The reply's line; a close has none of its own.
impl fmt::Display for Reply {
    ghost output = { λ r. Some (line (told_by r)) };

    fn fmt<W: fmt::Write>(&self, f: &mut fmt::Formatter<W>) -> fmt::Result {
        match self {
            Reply::Stop => f.write_str("STOP"),
            Reply::Refused(fault) => write!(f, "REFUSED {fault}"),
            Reply::Done => f.write_str("OK"),
            Reply::Taken(Submitted { beyond, first }) => {
                let first = first.unwrap_or(0);
                write!(f, "OK {beyond} {first}")
            }
            Reply::Closed => Ok(()),
        }
    }
}
