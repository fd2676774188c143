//! A message's series by the slots that they are about.
ghost use Rattle.std.specs.Prelude.{◌≡◌, ℕ, ◌<◌, ◌≤◌, length, slice_index_or, is_some, IfSome, [], Ok};
ghost use Rattle.forms.specs.Bounds.{most_groups};
ghost use Rattle.forms.specs.Bytes.{be32};
ghost use Rattle.forms.specs.Slots.{slot_of, kind_of, counter_of, slots, slot_at, Within};
ghost use Rattle.message.specs.Form.{series_count};
ghost use Rattle.message.specs.Heads.{heads_check};
ghost use Rattle.message.specs.Places.{head_is, place_of, sent_in, stated, IsFirst, ListsPlaces};

use crate::Message;
use forms::slot::{MOST_SLOTS, Slot};

/// A message of group `own` of `groups` groups whose heads are lawful and stand once, and the place of
/// each slot's series, by the number of the slot.
#[derive(Clone, Copy)]
pub struct SeriesBySlot<'a> {
    pub(crate) message: Message<'a>,
    pub(crate) groups: u8,
    // Named in clauses alone.
    pub(crate) own: u8,
    pub(crate) places: [Option<u8>; MOST_SLOTS],
    ghost few: { groups ≤ most_groups },
    ghost passed: { heads_check groups own message.bytes.now ≡ Ok tt },
    ghost listed: { ListsPlaces groups message.bytes.now places },
}

impl<'a> SeriesBySlot<'a> {
    /// The message.
    pub fn message(&self) -> Message<'a>
        ensures { result ≡ self.now.message }
    {
        self.message
    }

    /// Whether the slot of this number has a series.
    pub fn has_at(&self, number: usize) -> bool
        requires { number < slots self.now.groups }
        ensures { result ≡ sent_in self.now.message.bytes.now (slot_at self.now.groups number) }
    {
        let place = self.places[number];
        place.is_some()
    }

    /// The series that is about `slot`.
    pub(crate) fn find(&self, slot: Slot) -> Option<u8>
        requires { Within self.now.groups (slot_of slot) }
        ensures value { result ≡ place_of self.now.message.bytes.now (slot_of slot) }
        ensures first { IsFirst (head_is self.now.message.bytes.now (kind_of (slot_of slot)) (counter_of (slot_of slot))) (series_count self.now.message.bytes.now) result }
    {
        self.places[slot.number(usize::from(self.groups))]
    }

    /// Whether `slot` has a series.
    pub fn has(&self, slot: Slot) -> bool
        requires { Within self.now.groups (slot_of slot) }
        ensures { result ≡ sent_in self.now.message.bytes.now (slot_of slot) }
    {
        self.find(slot).is_some()
    }

    /// The values of the series that is about `slot`, each in its four bytes.
    pub fn words(&self, slot: Slot) -> Option<&'a [[u8; 4]]>
        requires { Within self.now.groups (slot_of slot) }
        ensures there { is_some result ≡ sent_in self.now.message.bytes.now (slot_of slot) }
        ensures count { IfSome result (λ words. length words.now ≡ self.now.message.quarters) }
        ensures each { IfSome result (λ words. (t : ℕ) → t < self.now.message.quarters → be32 (slice_index_or words.now t []) 0 ≡ stated self.now.message.quarters self.now.message.bytes.now (slot_of slot) t) }
    {
        let i = self.find(slot)?;
        Some(self.message.words(i))
    }
}
