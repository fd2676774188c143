//! A day at its close: what each group's imbalances cost, and its result row.
ghost use Rattle.std.specs.Prelude.{◌≡◌, ℕ, ◌*◌, ◌^◌, ◌<◌, ◌≤◌, pos, slice_index_or, unsigned_abs};
ghost use Rattle.forms.specs.Bounds.{price_bound};
ghost use Rattle.forms.specs.Closings.{long_price, short_price};
ghost use Rattle.settlement.specs.Amounts.{most_imbalance};
ghost use Rattle.book.specs.Closes.{Closing, quarter_today, balance_today, day_row};
ghost use Rattle.book.specs.Kept.{most_balance};
ghost use Rattle.book.specs.Rows.{row_of, amount_in};
ghost use Rattle.book.specs.States.{state_of, size, day_quarters};

use crate::open_day::OpenDay;
use crate::prices::Prices;
use crate::result_row::ResultRow;
use forms::closing::ClosingForm;
use settlement::amounts::to_cents;
use settlement::confirmed_day::ConfirmedDay;
use stage::rule::StageRule;

/// A day with a lawful closing form for it, and what is worked out once for all groups: the confirmed
/// trades and the prices.
#[derive(Clone, Copy)]
pub(crate) struct SettledDay<'d, 'l, 'w, 'f> {
    pub(crate) day: OpenDay<'l, 'w>,
    pub(crate) form: ClosingForm<'f>,
    pub(crate) confirmed: ConfirmedDay<'d, 'l, 'w>,
    pub(crate) prices: &'d Prices,
    ghost closing: { Closing (state_of day.ledger.now) form.groups form.quarters form.bytes.now },
    ghost groups: { confirmed.sheet.groups ≡ size (state_of day.ledger.now) },
    ghost sent: { confirmed.sheet.sent.now ≡ day.ledger.now.sent },
    ghost words: { confirmed.sheet.words.now ≡ day.sheet.now },
    ghost long: { (t : ℕ) → t < form.quarters → slice_index_or prices.now.long t (pos 0) ≡ long_price form.groups form.quarters form.bytes.now t },
    ghost short: { (t : ℕ) → t < form.quarters → slice_index_or prices.now.short t (pos 0) ≡ short_price form.groups form.quarters form.bytes.now t },
}

impl SettledDay<'_, '_, '_, '_> {
    /// What a group's imbalance of a quarter hour costs, in 4000ths of a cent, by its confirmed trades.
    fn quarter_cost(&self, a: usize, t: usize) -> i64
        requires { (a < size (state_of self.now.day.ledger.now)) × (t < day_quarters (state_of self.now.day.ledger.now)) }
        ensures value { result ≡ quarter_today (state_of self.now.day.ledger.now) self.now.day.sheet.now self.now.form.bytes.now a t }
        ensures bound { unsigned_abs result ≤ most_imbalance * price_bound }
    {
        let feed = self.form.feed_in(a, t);
        let prices = self.prices;
        self.confirmed
            .quarter_cost(a, t, feed, prices.long[t], prices.short[t])
    }

    /// A group's balance amount of the day, in cents: added over the day, divided once.
    fn balance(&self, a: usize) -> i64
        requires { a < size (state_of self.now.day.ledger.now) }
        ensures value { result ≡ balance_today (state_of self.now.day.ledger.now) self.now.day.sheet.now self.now.form.bytes.now a }
        ensures bound { unsigned_abs result < 2 ^ 52 }
    {
        // No `map` and `sum`: that a signed sum stays within its bounds did not come out proved.
        let mut cost: i64 = 0;
        for t in 0..self.day.ledger.quarters() as usize {
            cost += self.quarter_cost(a, t);
        }
        to_cents(cost)
    }

    /// A group's result row: mark, stage and penalty as they were fixed, and the balance amount.
    pub(crate) fn result_row<R: StageRule>(&self, rule: &R, a: usize) -> ResultRow
        requires { a < size (state_of self.now.day.ledger.now) }
        ensures row { row_of result ≡ day_row (R.meaning rule.now) (state_of self.now.day.ledger.now) self.now.day.sheet.now self.now.form.bytes.now a }
        ensures bound { amount_in result ≤ most_balance }
    {
        let ledger = self.day.ledger;
        let account = ledger.account(a);
        let day = ledger.day();
        ResultRow {
            day,
            group: a as u8 + 1,
            mark: account.marks.marked(day),
            stage: rule.stage(&account.marks),
            penalty: account.due,
            balance: self.balance(a),
        }
    }
}
