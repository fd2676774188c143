//! The current day of a ledger.
ghost use Rattle.std.specs.Prelude.{◌≡◌, ◌+◌, ◌*◌, ◌<◌, ◌≤◌};
ghost use Rattle.forms.specs.Bounds.{most_groups};
ghost use Rattle.book.specs.Sheets.{all_flags};
ghost use Rattle.forms.specs.Figures.{figures_of};
ghost use Rattle.forms.specs.Slots.{slots};
ghost use Rattle.settlement.specs.Sheets.{sheet_size, words_per_slot};
ghost use Rattle.book.specs.Kept.{cut_offs, days_in, penalties_in, balance_in, most_penalty, most_balance};
ghost use Rattle.book.specs.SheetWords.{words_in};
ghost use Rattle.book.specs.Queries.{day_check};
ghost use Rattle.forms.specs.Checks.{Finds};
ghost use Rattle.book.specs.States.{state_of, size, figures, kept, account_of, today, day_quarters, year_over};

use crate::group_account::GroupAccount;
use crate::ledger::Ledger;
use crate::open_day::OpenDay;
use crate::sheet_words::SheetWords;
use forms::calendar::{DAYS, quarters_of};
use forms::fault::Fault;
use forms::group::Group;
use forms::slot::slots_per_group;

impl Ledger {
    /// How many groups the book has.
    pub(crate) fn groups(&self) -> usize
        ensures value { result ≡ size (state_of self.now) }
        ensures count { result ≡ self.now.opening.groups.count }
        ensures some { 2 ≤ result }
        ensures few { result ≤ most_groups }
    {
        self.opening.groups() as usize
    }

    /// The current day, from 1; after the last close the number past the year's days.
    pub(crate) fn day(&self) -> u16
        ensures { result ≡ today (state_of self.now) }
    {
        self.closed + 1
    }

    /// How many quarter hours the current day has.
    pub(crate) fn quarters(&self) -> u8
        ensures value { result ≡ day_quarters (state_of self.now) }
        ensures few { result ≤ words_per_slot }
    {
        quarters_of(self.day())
    }

    /// Whether all days are closed.
    pub(crate) fn year_over(&self) -> bool
        ensures { result ≡ year_over (state_of self.now) }
    {
        self.closed >= DAYS
    }

    /// The place in the sheet of slot `number` of group `own`.
    pub(crate) fn place(&self, own: usize, number: usize) -> usize
        requires { (own < size (state_of self.now)) × (number < slots (size (state_of self.now))) }
        ensures value { result ≡ own * slots (size (state_of self.now)) + number }
        ensures flag { result < all_flags }
        ensures room { (result + 1) * words_per_slot ≤ sheet_size (size (state_of self.now)) }
    {
        own * slots_per_group(self.groups()) + number
    }

    /// What the opening form says of group `a`.
    pub(crate) fn figures(&self, a: usize) -> Group
        requires { a < size (state_of self.now) }
        ensures { figures_of result ≡ figures (state_of self.now) a }
    {
        self.opening.group(a)
    }

    /// What is kept for group `a`.
    pub(crate) fn account(&self, a: usize) -> GroupAccount
        requires { a < size (state_of self.now) }
        ensures value { account_of result ≡ kept (state_of self.now) a }
        ensures days { days_in result ≤ cut_offs self.now.closed self.now.phase }
        ensures penalties { penalties_in result ≤ cut_offs self.now.closed self.now.phase * most_penalty }
        ensures balance { balance_in result ≤ self.now.closed * most_balance }
    {
        self.accounts[a]
    }

    /// The day with the sheet that the call reads. Refuses when the year is over, or when the sheet does
    /// not fit.
    pub(crate) fn open_day<'l, 'w>(
        &'l self,
        sheet: SheetWords<'w>,
    ) -> Result<OpenDay<'l, 'w>, Fault>
        ensures { Finds result (day_check (state_of self.now) (words_in sheet.entry)) (λ d. (d.ledger.now ≡ self.now) × (d.sheet.now ≡ words_in sheet.entry)) }
    {
        if self.year_over() {
            return Err(Fault::WrongPhase);
        }
        if !sheet.fits(self.groups()) {
            return Err(Fault::WrongBuffer);
        }
        Ok(OpenDay {
            ledger: self,
            sheet: sheet.words(),
        })
    }
}
