//! An accepted message's series into their slots.
ghost use Rattle.std.specs.Prelude.{◌≡◌, ℕ, ◌+◌, ◌/◌, ◌≤◌, length, slice_index};
ghost use Rattle.message.specs.Read.{as_read, bytes_of};
ghost use Rattle.settlement.specs.Sheets.{sheet_size};
ghost use Rattle.book.specs.Messages.{Read, series_laid, sheet_after, flags_after};
ghost use Rattle.book.specs.States.{state_of, size, day_quarters};

use crate::ledger::{FLAGS, Ledger};
use crate::sending::Sending;
use forms::slot::slots_per_group;
use message::Message;
use message::series::Series;
use settlement::sheet::WORDS_PER_SLOT;

/// Writes a series into the words of a slot that begins at `at`.
fn lay_series(series: &Series<'_>, at: usize, sheet: &mut [u32])
    requires { at + length (bytes_of (as_read series.now)) / 4 ≤ length sheet.old }
    ensures { (k : ℕ) → slice_index sheet.new k ≡ series_laid (bytes_of (as_read series.now)) at (length (bytes_of (as_read series.now)) / 4) sheet.old k }
{
    // Through a `zip` with the words of the slot nothing is known of what was written.
    for (t, word) in series.words().iter().enumerate() {
        sheet[at + t] = u32::from_be_bytes(*word);
    }
}

impl Ledger {
    // It writes the sheet, which an `OpenDay` only reads, so it asks for what such a type would hold. The
    // flags are another list, written without the sheet: see `flags_after`.
    /// Writes each series of the message into its slot of the sender.
    pub(crate) fn lay(&self, message: &Message<'_>, own: usize, sheet: &mut [u32])
        requires read { Read (state_of self.now) own message.now.quarters message.now.bytes.now }
        requires sheet { length sheet.old ≡ sheet_size (size (state_of self.now)) }
        ensures { sheet.new ≡ sheet_after (size (state_of self.now)) (day_quarters (state_of self.now)) own message.now.bytes.now sheet.old }
    {
        let groups = self.groups();
        for i in 0..message.count() {
            if let Some(series) = message.series(i) {
                let number = series.slot().number(groups);
                let at = self.place(own, number) * WORDS_PER_SLOT;
                lay_series(&series, at, sheet);
            }
        }
    }
}

impl Sending<'_, '_, '_> {
    /// The presence flags once the message is accepted.
    pub(crate) fn flags_after(&self) -> [bool; FLAGS]
        ensures { result ≡ flags_after (size (state_of self.now.day.ledger.now)) self.now.own self.now.series.message.bytes.now self.now.day.ledger.now.sent }
    {
        let ledger = self.day.ledger;
        let first = ledger.place(self.own, 0);
        let groups = ledger.groups();
        let slots = slots_per_group(groups);
        let mut sent = ledger.sent;
        for (number, flag) in sent[first..first + slots].iter_mut().enumerate() {
            *flag = self.series.has_at(number);
        }
        sent
    }
}
