//! How an answer reads: its numbers with one blank between, or its refusal in their place.
ghost use Rattle.std.specs.Prelude.{Some};
ghost use Rattle.inquire.specs.Entries.{positions_told, standing_told, total_told, answer_told};

use book::answers::{Standing, Total};
use forms::fault::Fault;
use std::fmt;

/// An answer, or its refusal in its place.
#[derive(Clone, Copy)]
pub(crate) struct Answer<T>(pub(crate) Result<T, Fault>);

impl<T: fmt::Display> fmt::Display for Answer<T> {
    ghost output = { λ a. answer_told T.output a.0 };

    fn fmt<W: fmt::Write>(&self, f: &mut fmt::Formatter<W>) -> fmt::Result {
        match &self.0 {
            Ok(numbers) => write!(f, "{numbers}"),
            Err(fault) => write!(f, "REFUSED {fault}"),
        }
    }
}

/// Stated open position, confirmed open position and confirmed net purchases.
#[derive(Clone, Copy)]
pub(crate) struct Positions(pub(crate) (i64, i64, i64));

impl fmt::Display for Positions {
    ghost output = { λ p. Some (positions_told p.0) };

    fn fmt<W: fmt::Write>(&self, f: &mut fmt::Formatter<W>) -> fmt::Result {
        let (stated, confirmed, net) = self.0;
        write!(f, "{stated} {confirmed} {net}")
    }
}

/// A mark, as 1 or 0, and a stage.
#[derive(Clone, Copy)]
pub(crate) struct Marked(pub(crate) Standing);

impl fmt::Display for Marked {
    ghost output = { λ p. Some (standing_told (p.0.mark, p.0.stage)) };

    fn fmt<W: fmt::Write>(&self, f: &mut fmt::Formatter<W>) -> fmt::Result {
        let Standing { mark, stage } = self.0;
        let mark = u8::from(mark);
        write!(f, "{mark} {stage}")
    }
}

/// Penalties and balance.
#[derive(Clone, Copy)]
pub(crate) struct Totalled(pub(crate) Total);

impl fmt::Display for Totalled {
    ghost output = { λ p. Some (total_told (p.0.penalties, p.0.balance)) };

    fn fmt<W: fmt::Write>(&self, f: &mut fmt::Formatter<W>) -> fmt::Result {
        let Total { penalties, balance } = self.0;
        write!(f, "{penalties} {balance}")
    }
}
