//! The close of a day.
ghost use Rattle.std.specs.Prelude.{◌≡◌, ℕ, ◌+◌, ◌*◌, ◌≤◌, map, length, slice_index, unsigned_abs};
ghost use Rattle.forms.specs.Calendar.{year_days};
ghost use Rattle.book.specs.Closes.{day_rows, day_done, day_closed, close_check, closed_but_sheet};
ghost use Rattle.book.specs.Kept.{days_in, penalties_in, balance_in, most_balance};
ghost use Rattle.book.specs.SheetWords.{words_in};
ghost use Rattle.forms.specs.Checks.{Finds};
ghost use Rattle.book.specs.Rows.{row_of, amount_in, balance_in_row};
ghost use Rattle.book.specs.States.{state_of, account_of, size};

use crate::begin::nothing_sent;
use crate::closing_day::ClosingDay;
use crate::group_account::GroupAccount;
use crate::ledger::Ledger;
use crate::opened::Opened;
use crate::prices::Prices;
use crate::result_row::ResultRow;
use crate::settled_day::SettledDay;
use crate::sheet_words::SheetWords;
use forms::bounds::MOST_GROUPS;
use forms::closing::ClosingReader;
use forms::fault::Fault;
use settlement::confirmed_day::ConfirmedDay;
use settlement::phase::Phase;
use settlement::sheet::WORDS_PER_SLOT;
use stage::rule::StageRule;

impl Ledger {
    /// The day to be closed, once all tests of the closing form pass.
    fn check_close<'l, 'w, 'f>(
        &'l self,
        form: &'f [u8],
        sheet: SheetWords<'w>,
        rows: usize,
    ) -> Result<ClosingDay<'l, 'w, 'f>, Fault>
        ensures { Finds result (close_check (state_of self.now) (words_in sheet.entry) rows form.now) (λ c. (c.day.ledger.now ≡ self.now) × (c.day.sheet.now ≡ words_in sheet.entry) × (c.form.bytes.now ≡ form.now)) }
    {
        let form = ClosingReader::new(form, self.groups() as u8, self.quarters()).form()?;
        let Phase::After = self.phase else {
            return Err(Fault::WrongPhase);
        };
        let day = self.open_day(sheet)?;
        if rows != self.groups() {
            return Err(Fault::WrongBuffer);
        }
        form.check_values()?;
        Ok(ClosingDay { day, form })
    }
}

impl GroupAccount {
    /// The account when the day is closed, by the day's balance amount.
    fn day_done(&self, amount: i64) -> GroupAccount
        requires { (balance_in self.now ≤ year_days * most_balance) × (unsigned_abs amount ≤ most_balance) }
        ensures value { account_of result ≡ day_done (account_of self.now) amount }
        ensures days { days_in result ≡ days_in self.now }
        ensures penalties { penalties_in result ≡ penalties_in self.now }
        ensures balance { balance_in result ≤ balance_in self.now + most_balance }
    {
        GroupAccount {
            version: 0,
            due: 0,
            balance: self.balance + amount,
            ..*self
        }
    }
}

impl ClosingDay<'_, '_, '_> {
    /// Writes the day's result rows.
    fn fill_rows<R: StageRule>(&self, rule: &R, rows: &mut [ResultRow])
        requires { length rows.old ≡ size (state_of self.now.day.ledger.now) }
        ensures rows { map row_of rows.new ≡ day_rows (R.meaning rule.now) (state_of self.now.day.ledger.now) self.now.day.sheet.now self.now.form.bytes.now }
        ensures bound { (k : ℕ) → slice_index (map amount_in rows.new) k ≤ most_balance }
    {
        let ClosingDay { day, form } = *self;
        let sheet = day.on_sheet();
        let mut taken = [[0; WORDS_PER_SLOT]; MOST_GROUPS];
        let mut given = [[0; WORDS_PER_SLOT]; MOST_GROUPS];
        sheet.add_confirmed(&mut taken, &mut given);
        let settled = SettledDay {
            day,
            form,
            confirmed: ConfirmedDay {
                sheet,
                taken: &taken,
                given: &given,
            },
            prices: &Prices::of(&form, day.ledger.quarters()),
        };
        for (a, row) in rows.iter_mut().enumerate() {
            *row = settled.result_row(rule, a);
        }
    }

    /// The ledger of the next day, ahead, with nothing sent; the rows' balance amounts are added.
    fn next_day(&self, rows: &[ResultRow]) -> Ledger
        requires { (length rows.now ≡ size (state_of self.now.day.ledger.now)) × (((k : ℕ) → slice_index (map amount_in rows.now) k ≤ most_balance)) }
        ensures { state_of result ≡ day_closed (state_of self.now.day.ledger.now) (balance_in_row rows.now) }
    {
        let ledger = self.day.ledger;
        let mut accounts = ledger.accounts;
        // Through a `zip` with the accounts nothing is known of what was written.
        for (a, row) in rows.iter().enumerate() {
            accounts[a] = ledger.account(a).day_done(row.balance);
        }
        let mut next = *ledger;
        next.closed += 1;
        next.phase = Phase::Ahead;
        next.sent = nothing_sent();
        next.accounts = accounts;
        next
    }
}

impl<R: StageRule> Opened<R> {
    /// Closes the day: fills the rows and adds the balances. The sheet is still to be cleared.
    pub(crate) fn close(
        &mut self,
        form: &[u8],
        sheet: SheetWords<'_>,
        rows: &mut [ResultRow],
    ) -> Result<(), Fault>
        ensures book { (result, state_of self.new.ledger, map row_of rows.new) ≡ closed_but_sheet (R.meaning self.old.rule) (state_of self.old.ledger) (record { sheet = words_in sheet.entry; rows = map row_of rows.old }) form.now }
        ensures rule { self.new.rule ≡ self.old.rule }
    {
        let closing = self.ledger.check_close(form, sheet, rows.len())?;
        closing.fill_rows(&self.rule, rows);
        self.ledger = closing.next_day(rows);
        Ok(())
    }
}
