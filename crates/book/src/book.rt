//! The calls.
ghost use Rattle.std.specs.Prelude.{◌≡◌, map, is_some, None};
ghost use Rattle.book.specs.Calls.{submits, advances, closes, asks_position, asks_trade, asks_standing, asks_total, groups_in, days_cut_in};
ghost use Rattle.book.specs.SheetWords.{words_in};
ghost use Rattle.book.specs.Messages.{submitted_of};
ghost use Rattle.book.specs.Opens.{held_in, open_check, opened_by};
ghost use Rattle.book.specs.Queries.{standing_of, total_of};
ghost use Rattle.book.specs.Rows.{row_of};

use crate::answers::{Standing, Submitted, Total};
use crate::ledger::Ledger;
use crate::opened::Opened;
use crate::result_row::ResultRow;
use crate::sheet_words::SheetWords;
use crate::whole_sheet::clear;
use forms::fault::Fault;
use forms::opening::OpeningReader;
use stage::rule::StageRule;

/// A place for a book: empty, or holding one that is open under a rule. Each call but `open` asks for
/// it by the library's `ok_or` and `?`, which a helper of our own would not shorten.
#[derive(Drop)]
pub struct Book<R> {
    pub(crate) inner: Option<Opened<R>>,
}

impl<R: StageRule> Book<R> {
    /// A place that holds no book.
    pub fn empty() -> Book<R>
        ensures { held_in result.inner ≡ None }
    {
        Book { inner: None }
    }

    /// Opens a new book in this place, or refuses and leaves what was there.
    pub fn open(&mut self, rule: R, form: &[u8], sheet: &mut [u32]) -> Result<(), Fault>
    where
        R: Copy,
        ensures { (result, held_in self.new.inner, sheet.new) ≡ opened_by (held_in self.old.inner) rule form.now sheet.old }
    {
        self.begin(rule, form, SheetWords::Lent(sheet))?;
        clear(sheet);
        Ok(())
    }

    /// The same, where the sheet is still to be cleared.
    pub(crate) fn begin(&mut self, rule: R, form: &[u8], sheet: SheetWords<'_>) -> Result<(), Fault>
    where
        R: Copy,
        ensures answer { result ≡ open_check form.now (words_in sheet.entry) }
        ensures place { held_in self.new.inner ≡ (opened_by (held_in self.old.inner) rule form.now (words_in sheet.entry)).1 }
    {
        let form = OpeningReader::new(form).form()?;
        if !sheet.fits(form.groups() as usize) {
            return Err(Fault::WrongBuffer);
        }
        form.check_rows()?;
        let ledger = Ledger::begun(form.opening());
        self.inner = Some(Opened { rule, ledger });
        Ok(())
    }

    /// Whether a book is open here.
    pub fn is_open(&self) -> bool
        ensures { result ≡ is_some (held_in self.now.inner) }
    {
        self.inner.is_some()
    }

    /// Takes a message, or refuses it and changes nothing.
    pub fn submit(&mut self, form: &[u8], sheet: &mut [u32]) -> Result<Submitted, Fault>
        ensures { (submitted_of result, held_in self.new.inner, sheet.new) ≡ submits (held_in self.old.inner) sheet.old form.now }
    {
        let open = self.inner.as_mut().ok_or(Fault::WrongPhase)?;
        let message = open.ledger.accept(form, SheetWords::Lent(sheet))?;
        Ok(open.ledger.take(&message, sheet))
    }

    /// Moves the phase of the day; the second advance of a day is its cut-off.
    pub fn advance(&mut self, sheet: &[u32]) -> Result<(), Fault>
        ensures { (result, held_in self.new.inner) ≡ advances R.meaning (held_in self.old.inner) sheet.now }
    {
        let open = self.inner.as_mut().ok_or(Fault::WrongPhase)?;
        open.advance(SheetWords::Lent(sheet))
    }

    /// Closes the day and fills a result row for each group.
    pub fn close(
        &mut self,
        form: &[u8],
        sheet: &mut [u32],
        rows: &mut [ResultRow],
    ) -> Result<(), Fault>
        ensures { (result, held_in self.new.inner, record { sheet = sheet.new; rows = map row_of rows.new }) ≡ closes R.meaning (held_in self.old.inner) (record { sheet = sheet.old; rows = map row_of rows.old }) form.now }
    {
        let open = self.inner.as_mut().ok_or(Fault::WrongPhase)?;
        open.close(form, SheetWords::Lent(sheet), rows)?;
        clear(sheet);
        Ok(())
    }

    /// Stated open position, confirmed open position and confirmed net purchases of a group at a
    /// quarter hour, both from 1.
    pub fn position(
        &self,
        sheet: &[u32],
        group: u16,
        quarter: u16,
    ) -> Result<(i64, i64, i64), Fault>
        ensures { result ≡ asks_position (held_in self.now.inner) sheet.now group quarter }
    {
        let open = self.inner.as_ref().ok_or(Fault::WrongPhase)?;
        open.ledger
            .position(SheetWords::Lent(sheet), group, quarter)
    }

    // The numbers of a question come one by one: a struct for them would be made at each call.
    /// The confirmed trade from one group to another at a quarter hour.
    pub fn trade(&self, sheet: &[u32], from: u16, to: u16, quarter: u16) -> Result<u32, Fault>
        ensures { result ≡ asks_trade (held_in self.now.inner) sheet.now from to quarter }
    {
        let open = self.inner.as_ref().ok_or(Fault::WrongPhase)?;
        open.ledger
            .trade(SheetWords::Lent(sheet), from, to, quarter)
    }

    /// A group's mark and stage on a day past its cut-off.
    pub fn standing(&self, group: u16, day: u16) -> Result<Standing, Fault>
        ensures { standing_of result ≡ asks_standing R.meaning (held_in self.now.inner) group day }
    {
        let open = self.inner.as_ref().ok_or(Fault::WrongPhase)?;
        open.standing(group, day)
    }

    /// A group's penalties up to the last cut-off and its balance up to the last close.
    pub fn total(&self, group: u16) -> Result<Total, Fault>
        ensures { total_of result ≡ asks_total (held_in self.now.inner) group }
    {
        let open = self.inner.as_ref().ok_or(Fault::WrongPhase)?;
        open.ledger.total(group)
    }

    /// How many groups the book has, 0 where none is open.
    pub fn groups(&self) -> u16
        ensures { result ≡ groups_in (held_in self.now.inner) }
    {
        self.inner
            .as_ref()
            .map_or(0, |open| open.ledger.groups() as u16)
    }

    /// How many days are past their cut-off, 0 where no book is open.
    pub fn cut_offs(&self) -> u16
        ensures { result ≡ days_cut_in (held_in self.now.inner) }
    {
        self.inner.as_ref().map_or(0, |open| open.ledger.cut_offs())
    }
}
