//! The current day of a ledger, with the sheet that a call reads.
ghost use Rattle.std.specs.Prelude.{◌≡◌, true, length};
ghost use Rattle.settlement.specs.Sheets.{sheet_size};
ghost use Rattle.book.specs.Sheets.{all_powers};
ghost use Rattle.book.specs.States.{state_of, size};

use crate::ledger::Ledger;
use settlement::sheet::{Sheet, WholeSheet};

/// A ledger, and a sheet that has the length for its groups and no word above the bound on powers.
#[derive(Clone, Copy)]
pub struct OpenDay<'l, 'w> {
    pub(crate) ledger: &'l Ledger,
    pub(crate) sheet: &'w [u32],
    ghost room: { length sheet.now ≡ sheet_size (size (state_of ledger.now)) },
    ghost lawful: { all_powers sheet.now ≡ true },
}

impl<'l, 'w> OpenDay<'l, 'w> {
    /// The sheet, read by what was sent today.
    pub(crate) fn on_sheet(&self) -> WholeSheet<'l, 'w>
        ensures groups { result.groups ≡ size (state_of self.now.ledger.now) }
        ensures sent { result.sent.now ≡ self.now.ledger.now.sent }
        ensures words { result.words.now ≡ self.now.sheet.now }
    {
        let ledger = self.ledger;
        Sheet::new(ledger.groups(), &ledger.sent, self.sheet).whole()
    }
}
