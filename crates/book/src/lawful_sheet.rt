//! A sheet whose words are never above the bound on powers, and the calls on it, which test no word.
ghost use Rattle.std.specs.Prelude.{◌≡◌, [], true, IfOk, map, min, length, replicate};
ghost use Rattle.forms.specs.Bounds.{most_groups};
ghost use Rattle.settlement.specs.Sheets.{sheet_size};
ghost use Rattle.book.specs.Calls.{submits, advances, closes, asks_position, asks_trade};
ghost use Rattle.book.specs.Messages.{submitted_of};
ghost use Rattle.book.specs.Opens.{held_in, opened_by};
ghost use Rattle.book.specs.Rows.{row_of};
ghost use Rattle.book.specs.Sheets.{all_powers};

use crate::answers::Submitted;
use crate::book::Book;
use crate::result_row::ResultRow;
use crate::sheet_words::SheetWords;
use crate::whole_sheet::clear;
use forms::bounds::MOST_GROUPS;
use forms::fault::Fault;
use settlement::sheet::sheet_size;
use stage::rule::StageRule;
use std::alloc::{AllocError, Global};
use std::marker::Model;

/// A sheet of which no word is above the bound on powers: only the calls of this file write it.
#[derive(Drop)]
pub struct LawfulSheet {
    words: Vec<u32>,
}

// Clauses see its words, as those of a sheet that is lent.
impl Model for LawfulSheet {
    ghost use Rattle.std.specs.Prelude.{◌≡◌, List, ℕ, true};
    ghost use Rattle.book.specs.Sheets.{all_powers};

    ghost Value = { List ℕ };

    ghost view = { λ s. s.words.items };

    ghost invariant = { λ s. all_powers s.words.items ≡ true };
}

impl LawfulSheet {
    /// A sheet of no words.
    pub fn empty(heap: Global) -> LawfulSheet
        ensures { result ≡ [] }
    {
        LawfulSheet {
            words: Vec::new(heap),
        }
    }

    /// A sheet with zero everywhere, for so many groups, or for 16 where there are more.
    pub fn blank(heap: Global, groups: usize) -> Result<LawfulSheet, AllocError>
        ensures { IfOk result (λ sheet. sheet ≡ replicate (sheet_size (min groups most_groups)) 0) }
    {
        let words = vec![in heap; 0u32; sheet_size(groups.min(MOST_GROUPS))]?;
        Ok(LawfulSheet { words })
    }

    /// Its words.
    pub fn words(&self) -> &[u32]
        ensures value { result.now ≡ self.now }
        ensures lawful { all_powers self.now ≡ true }
    {
        self.words.as_slice()
    }

    /// Writes zero into each word.
    fn clear(&mut self)
        ensures { self.new ≡ replicate (length self.old) 0 }
    {
        clear(&mut self.words);
    }
}

impl<R: StageRule> Book<R> {
    /// Opens a new book in this place, or refuses and leaves what was there.
    pub fn open_on(&mut self, rule: R, form: &[u8], sheet: &mut LawfulSheet) -> Result<(), Fault>
    where
        R: Copy,
        ensures { (result, held_in self.new.inner, sheet.new) ≡ opened_by (held_in self.old.inner) rule form.now sheet.old }
    {
        self.begin(rule, form, SheetWords::Lawful(sheet))?;
        sheet.clear();
        Ok(())
    }

    /// Takes a message, or refuses it and changes nothing.
    pub fn submit_on(&mut self, form: &[u8], sheet: &mut LawfulSheet) -> Result<Submitted, Fault>
        ensures { (submitted_of result, held_in self.new.inner, sheet.new) ≡ submits (held_in self.old.inner) sheet.old form.now }
    {
        let open = self.inner.as_mut().ok_or(Fault::WrongPhase)?;
        let message = open.ledger.accept(form, SheetWords::Lawful(sheet))?;
        Ok(open.ledger.take(&message, &mut sheet.words))
    }

    /// Moves the phase of the day; the second advance of a day is its cut-off.
    pub fn advance_on(&mut self, sheet: &LawfulSheet) -> Result<(), Fault>
        ensures { (result, held_in self.new.inner) ≡ advances R.meaning (held_in self.old.inner) sheet.now }
    {
        let open = self.inner.as_mut().ok_or(Fault::WrongPhase)?;
        open.advance(SheetWords::Lawful(sheet))
    }

    /// Closes the day and fills a result row for each group.
    pub fn close_on(
        &mut self,
        form: &[u8],
        sheet: &mut LawfulSheet,
        rows: &mut [ResultRow],
    ) -> Result<(), Fault>
        ensures { (result, held_in self.new.inner, record { sheet = sheet.new; rows = map row_of rows.new }) ≡ closes R.meaning (held_in self.old.inner) (record { sheet = sheet.old; rows = map row_of rows.old }) form.now }
    {
        let open = self.inner.as_mut().ok_or(Fault::WrongPhase)?;
        open.close(form, SheetWords::Lawful(sheet), rows)?;
        sheet.clear();
        Ok(())
    }

    /// Stated open position, confirmed open position and confirmed net purchases of a group at a
    /// quarter hour, both from 1.
    pub fn position_on(
        &self,
        sheet: &LawfulSheet,
        group: u16,
        quarter: u16,
    ) -> Result<(i64, i64, i64), Fault>
        ensures { result ≡ asks_position (held_in self.now.inner) sheet.now group quarter }
    {
        let open = self.inner.as_ref().ok_or(Fault::WrongPhase)?;
        open.ledger
            .position(SheetWords::Lawful(sheet), group, quarter)
    }

    /// The confirmed trade from one group to another at a quarter hour.
    pub fn trade_on(
        &self,
        sheet: &LawfulSheet,
        from: u16,
        to: u16,
        quarter: u16,
    ) -> Result<u32, Fault>
        ensures { result ≡ asks_trade (held_in self.now.inner) sheet.now from to quarter }
    {
        let open = self.inner.as_ref().ok_or(Fault::WrongPhase)?;
        open.ledger
            .trade(SheetWords::Lawful(sheet), from, to, quarter)
    }
}
