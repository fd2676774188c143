//! A message that a group of the book sends for the current day.
ghost use Rattle.std.specs.Prelude.{◌≡◌};
ghost use Rattle.book.specs.Messages.{Read};
ghost use Rattle.book.specs.States.{state_of, size};

use crate::open_day::OpenDay;
use message::by_slot::SeriesBySlot;

/// The series of a message with lawful heads, its version, and the place of the group that sends it,
/// from 0.
#[derive(Clone, Copy)]
pub struct Sending<'l, 'w, 'm> {
    pub(crate) day: OpenDay<'l, 'w>,
    pub(crate) series: SeriesBySlot<'m>,
    pub(crate) own: usize,
    pub(crate) version: u16,
    ghost read: { Read (state_of day.ledger.now) own series.message.quarters series.message.bytes.now },
    ghost groups: { series.groups ≡ size (state_of day.ledger.now) },
}
