//! A group's trades of a whole day at once. Quarter hours count from 0.
ghost use Rattle.std.specs.Prelude.{◌≡◌, ℕ, ◌+◌, ◌*◌, ◌^◌, ◌<◌, ◌≤◌, length, pos, ◌-ℤ◌, slice_index, unsigned_abs};
ghost use Rattle.forms.specs.Bounds.{most_groups};
ghost use Rattle.forms.specs.Slots.{slot_of, Within};
ghost use Rattle.settlement.specs.Days.{day_net, HasRoom, GrowsAtMostAWord, Adds};
ghost use Rattle.settlement.specs.Sums.{with_others};
ghost use Rattle.settlement.specs.Positions.{stated_check, stated_with};
ghost use Rattle.settlement.specs.Sheets.{words_per_slot};
ghost use Rattle.settlement.specs.Statements.{sent_on};

use crate::sheet::{WORDS_PER_SLOT, WholeSheet, slot_place};
use crate::words::add_words;
use forms::slot::Slot;

/// The trades of a group for each quarter hour, as two sums: what it takes, and what it gives. Only
/// their difference is promised and asked for.
#[derive(Clone, Copy)]
pub struct DayTrades {
    // Two arrays, since whole slots are added to one of them at a time.
    pub taken: [u32; WORDS_PER_SLOT],
    pub given: [u32; WORDS_PER_SLOT],
    ghost taken_long: { length taken ≡ words_per_slot },
    ghost given_long: { length given ≡ words_per_slot },
    ghost taken_low: { (t : ℕ) → slice_index taken t ≤ 2 ^ 29 },
    ghost given_low: { (t : ℕ) → slice_index given t ≤ 2 ^ 29 },
}

impl DayTrades {
    /// In less out, in a quarter hour.
    pub fn net(&self, t: usize) -> i32
        requires { t < words_per_slot }
        ensures value { result ≡ day_net self.now.taken self.now.given t }
        ensures bound { unsigned_abs result ≤ 2 ^ 30 }
    {
        self.taken[t] as i32 - self.given[t] as i32
    }

    /// The trades of group `own` with all others: `add` adds those with one of them to what is taken and
    /// to what is given.
    pub fn with_others<F: Fn(usize, &mut [u32], &mut [u32])>(
        groups: usize,
        own: usize,
        add: F,
    ) -> DayTrades
        requires few { groups ≤ most_groups }
        requires called { (b : ℕ) (x y : _) → b < groups → HasRoom x.now → HasRoom y.now → F.pre add b x y }
        requires low { (b : ℕ) (x y u v : _) → b < groups → F.post add b x y tt u v → GrowsAtMostAWord x.now u.now × GrowsAtMostAWord y.now v.now }
        ensures low { (t : ℕ) → slice_index result.given t ≤ 2 ^ 28 }
        ensures value { (q : ℕ) (i o : ℕ → ℕ → ℕ) → ((b : ℕ) (x y u v : _) → b < groups → F.post add b x y tt u v → Adds q (i b) x.now u.now × Adds q (o b) y.now v.now)
            → (t : ℕ) → t < q → day_net result.taken result.given t ≡ with_others (λ b. pos (i b t) -ℤ pos (o b t)) own groups }
    {
        let mut taken = [0; WORDS_PER_SLOT];
        let mut given = [0; WORDS_PER_SLOT];
        for b in 0..groups {
            if b != own {
                add(b, &mut taken, &mut given);
            }
        }
        DayTrades { taken, given }
    }
}

impl WholeSheet<'_, '_> {
    /// Adds a slot's words to a day's sums; a slot not sent adds nothing.
    fn add_slot(&self, group: usize, slot: Slot, sums: &mut [u32])
        requires within { (group < self.now.groups) × (Within self.now.groups (slot_of slot)) }
        requires room { HasRoom sums.old }
        ensures value { Adds words_per_slot (sent_on self.now group (slot_of slot)) sums.old sums.new }
        ensures bound { GrowsAtMostAWord sums.old sums.new }
    {
        let place = slot_place(self.groups, group, slot);
        if self.sent[place] {
            let at = place * WORDS_PER_SLOT;
            add_words(sums, |t| self.words[at + t]);
        }
    }

    /// The trades of group `a` as it has stated them itself.
    fn stated_trades(&self, a: usize) -> DayTrades
        requires { a < self.now.groups }
        ensures low { (t : ℕ) → slice_index result.given t ≤ 2 ^ 28 }
        ensures value { (t : ℕ) → t < words_per_slot → day_net result.taken result.given t ≡ stated_with (sent_on self.now) t a self.now.groups }
    {
        DayTrades::with_others(self.groups, a, |b, taken, given| {
            self.add_slot(a, Slot::InFrom(b as u8), taken);
            self.add_slot(a, Slot::OutTo(b as u8), given);
        })
    }

    /// The check values of group `a` by what it has stated: its trades, with its consumption among what it
    /// gives.
    // Inlined, so that the sums are not copied to the caller.
    #[inline(always)]
    pub fn stated_checks(&self, a: usize) -> DayTrades
        requires { a < self.now.groups }
        ensures { (t : ℕ) → t < words_per_slot → day_net result.taken result.given t ≡ stated_check (sent_on self.now) self.now.groups t a }
    {
        let mut checks = self.stated_trades(a);
        self.add_slot(a, Slot::Cons, &mut checks.given);
        checks
    }
}
