//! The confirmed trades of all groups, of a whole day.
ghost use Rattle.std.specs.Prelude.{◌≡◌, ℕ, ◌+◌, ◌*◌, ◌^◌, ◌<◌, ◌≤◌, ◌+ℤ◌, ◌&&◌, false, length, replicate, slice_index, slice_index_or, unsigned_abs};
ghost use Rattle.forms.specs.Bounds.{most_groups, power_bound, price_bound};
ghost use Rattle.forms.specs.Figures.{figures_of};
ghost use Rattle.settlement.specs.declared.phase.Phase.TheVariants.{After};
ghost use Rattle.settlement.specs.Amounts.{most_imbalance, imbalance_cost};
ghost use Rattle.settlement.specs.Days.{AreBlank, HasRoom, GrowsAtMostAWord, Adds, sums_of};
ghost use Rattle.settlement.specs.Positions.{AreConfirmed, confirmed, given_to, net_purchases, confirmed_open, excess, day_excess};
ghost use Rattle.settlement.specs.Sheets.{words_per_slot};
ghost use Rattle.settlement.specs.Statements.{sent_on};
ghost use Rattle.settlement.specs.Sums.{sumℕ};

use crate::amounts::imbalance_cost;
use crate::phase::Phase;
use crate::positions::{excess, open_position};
use crate::sheet::{WORDS_PER_SLOT, WholeSheet, slot_place};
use crate::words::add_to_both;
use forms::bounds::MOST_GROUPS;
use forms::group::Group;
use forms::slot::Slot;

/// A group's sums, one for each quarter hour of a day.
pub type GroupSums = [u32; WORDS_PER_SLOT];

/// A sheet, and what each of its groups takes and gives in confirmed trades; only their difference is
/// promised, as in `DayTrades`. The sums are lent, since they are too many to be handed about.
#[derive(Clone, Copy)]
pub struct ConfirmedDay<'t, 's, 'w> {
    pub sheet: WholeSheet<'s, 'w>,
    pub taken: &'t [GroupSums; MOST_GROUPS],
    pub given: &'t [GroupSums; MOST_GROUPS],
    ghost confirmed: { AreConfirmed (sent_on sheet) sheet.groups taken.now given.now },
}

impl WholeSheet<'_, '_> {
    /// Whether the slots at two places were both sent.
    fn both_sent(&self, out: usize, into: usize) -> bool
        requires { (out < length self.now.sent.now) × (into < length self.now.sent.now) }
        ensures { result ≡ (slice_index_or self.now.sent.now out false && slice_index_or self.now.sent.now into false) }
    {
        self.sent[out] && self.sent[into]
    }

    /// Adds the confirmed trade from group `a` to group `b` to what the one gives and the other takes.
    fn add_trade(&self, a: usize, b: usize, given: &mut GroupSums, taken: &mut GroupSums)
        requires within { (a < self.now.groups) × (b < self.now.groups) }
        requires room { HasRoom given.old × HasRoom taken.old }
        ensures value { Adds words_per_slot (λ t. confirmed (sent_on self.now) t a b) given.old given.new × Adds words_per_slot (λ t. confirmed (sent_on self.now) t a b) taken.old taken.new }
        ensures bound { GrowsAtMostAWord given.old given.new × GrowsAtMostAWord taken.old taken.new }
    {
        let out = slot_place(self.groups, a, Slot::OutTo(b as u8));
        let into = slot_place(self.groups, b, Slot::InFrom(a as u8));
        if self.both_sent(out, into) {
            let from = out * WORDS_PER_SLOT;
            let to = into * WORDS_PER_SLOT;
            add_to_both(given, taken, |t| {
                self.words[from + t].min(self.words[to + t])
            });
        }
    }

    /// Adds the confirmed trades from group `a` to all others, to what it gives and to what each of them takes.
    fn add_trades(&self, a: usize, given: &mut GroupSums, taken: &mut [GroupSums; MOST_GROUPS])
        requires within { a < self.now.groups }
        requires blank { given.old ≡ replicate words_per_slot 0 }
        requires room { (b : ℕ) → b < most_groups → HasRoom (sums_of taken.old b) }
        ensures given { (t : ℕ) → t < words_per_slot → slice_index given.new t ≡ sumℕ (given_to (sent_on self.now) t a) self.now.groups }
        ensures taken { (b : ℕ) → b < self.now.groups → Adds words_per_slot (λ t. given_to (sent_on self.now) t a b) (sums_of taken.old b) (sums_of taken.new b) }
        ensures bound { (b : ℕ) → GrowsAtMostAWord (sums_of taken.old b) (sums_of taken.new b) }
    {
        for b in 0..self.groups {
            if b != a {
                self.add_trade(a, b, given, &mut taken[b]);
            }
        }
    }

    /// Adds the confirmed trades of all groups, each worked out once, to sums that are still blank.
    pub fn add_confirmed(
        &self,
        taken: &mut [GroupSums; MOST_GROUPS],
        given: &mut [GroupSums; MOST_GROUPS],
    )
        requires taken { AreBlank taken.old }
        requires given { AreBlank given.old }
        ensures { AreConfirmed (sent_on self.now) self.now.groups taken.new given.new }
    {
        for a in 0..self.groups {
            self.add_trades(a, &mut given[a], taken);
        }
    }
}

impl ConfirmedDay<'_, '_, '_> {
    /// The confirmed net purchases of group `a` in a quarter hour.
    fn net_purchases(&self, a: usize, t: usize) -> i64
        requires { (a < self.now.sheet.groups) × (t < words_per_slot) }
        ensures value { result ≡ net_purchases (sent_on self.now.sheet) self.now.sheet.groups t a }
        ensures bound { unsigned_abs result ≤ 2 ^ 36 }
    {
        i64::from(self.taken[a][t]) - i64::from(self.given[a][t])
    }

    /// How far group `a`'s confirmed open position lies beyond its limit in a quarter hour.
    fn quarter_excess(&self, figures: &Group, a: usize, t: usize) -> u64
        requires { (a < self.now.sheet.groups) × (t < words_per_slot) }
        ensures value { result ≡ excess (figures_of figures.now) After (confirmed_open (sent_on self.now.sheet) (figures_of figures.now) self.now.sheet.groups t a) }
        ensures bound { result ≤ 2 ^ 37 }
    {
        let check = self.net_purchases(a, t) - i64::from(self.sheet.value(a, Slot::Cons, t));
        excess(figures, Phase::After, open_position(figures, check))
    }

    /// The sum of the excesses of group `a`'s confirmed open position over the day's `q` quarter hours.
    pub fn excess(&self, figures: &Group, a: usize, q: usize) -> u64
        requires { (a < self.now.sheet.groups) × (q ≤ words_per_slot) }
        ensures value { result ≡ day_excess (sent_on self.now.sheet) (figures_of figures.now) self.now.sheet.groups a q }
        ensures bound { result ≤ 2 ^ 37 * q }
    {
        (0..q).map(|t| self.quarter_excess(figures, a, t)).sum()
    }

    /// What the imbalance of group `a` costs in the quarter hour `t`, in 4000ths of a cent, by its metered
    /// feed-in in kW and the prices in cents per MWh. Below zero it is a credit.
    pub fn quarter_cost(&self, a: usize, t: usize, feed: i32, long: i32, short: i32) -> i64
        requires within { (a < self.now.sheet.groups) × (t < words_per_slot) }
        requires lawful { (unsigned_abs feed ≤ power_bound) × ((unsigned_abs long ≤ price_bound) × (unsigned_abs short ≤ price_bound)) }
        ensures value { result ≡ imbalance_cost (net_purchases (sent_on self.now.sheet) self.now.sheet.groups t a +ℤ feed) long short }
        ensures bound { unsigned_abs result ≤ most_imbalance * price_bound }
    {
        let imbalance = self.net_purchases(a, t) + i64::from(feed);
        imbalance_cost(imbalance, long, short)
    }
}
