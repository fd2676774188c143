//! The trades of a quarter hour between the groups, stated and confirmed.
ghost use Rattle.std.specs.Prelude.{◌≡◌, ◌*◌, ◌^◌, ◌<◌, ◌≤◌, pos, ◌-ℤ◌, unsigned_abs};
ghost use Rattle.forms.specs.Slots.{out_to, in_from};
ghost use Rattle.settlement.specs.Sheets.{words_per_slot};
ghost use Rattle.settlement.specs.Statements.{sent_on};
ghost use Rattle.settlement.specs.Positions.{confirmed as confirmed-trade, confirmed_with, stated_with};

use crate::sheet::WholeSheet;
use forms::slot::Slot;

/// A group's trades of a quarter hour, in less out: as it has stated them, and as they are confirmed.
#[derive(Clone, Copy)]
pub(crate) struct TradeSums {
    pub stated: i64,
    pub confirmed: i64,
}

impl WholeSheet<'_, '_> {
    /// The confirmed trade from group `a` to group `b`: the lower of the two sides' values.
    pub fn trade(&self, a: usize, b: usize, t: usize) -> u32
        requires { (a < self.now.groups) × ((b < self.now.groups) × (t < words_per_slot)) }
        ensures { result ≡ confirmed-trade (sent_on self.now) t a b }
    {
        let out_to = self.value(a, Slot::OutTo(b as u8), t);
        let in_from = self.value(b, Slot::InFrom(a as u8), t);
        out_to.min(in_from)
    }

    /// The trades of group `a` with group `b`, in less out. Each of the four words is read once.
    fn between(&self, a: usize, b: usize, t: usize) -> TradeSums
        requires { (a < self.now.groups) × ((b < self.now.groups) × (t < words_per_slot)) }
        ensures stated { result.stated ≡ pos (sent_on self.now a (in_from b) t) -ℤ pos (sent_on self.now a (out_to b) t) }
        ensures confirmed { result.confirmed ≡ pos (confirmed-trade (sent_on self.now) t b a) -ℤ pos (confirmed-trade (sent_on self.now) t a b) }
        ensures bound { (unsigned_abs result.stated ≤ 2 ^ 32) × (unsigned_abs result.confirmed ≤ 2 ^ 32) }
    {
        let own_out = self.value(a, Slot::OutTo(b as u8), t);
        let own_in = self.value(a, Slot::InFrom(b as u8), t);
        let other_out = self.value(b, Slot::OutTo(a as u8), t);
        let other_in = self.value(b, Slot::InFrom(a as u8), t);
        TradeSums {
            stated: i64::from(own_in) - i64::from(own_out),
            confirmed: i64::from(other_out.min(own_in)) - i64::from(own_out.min(other_in)),
        }
    }

    /// The trades of group `a` with all other groups, in less out, by one pass.
    pub(crate) fn sums(&self, a: usize, t: usize) -> TradeSums
        requires { (a < self.now.groups) × (t < words_per_slot) }
        ensures stated { result.stated ≡ stated_with (sent_on self.now) t a self.now.groups }
        ensures confirmed { result.confirmed ≡ confirmed_with (sent_on self.now) t a self.now.groups }
        ensures bound { (unsigned_abs result.stated ≤ 2 ^ 32 * self.now.groups) × (unsigned_abs result.confirmed ≤ 2 ^ 32 * self.now.groups) }
    {
        // Each of the four words is read once for both sums, which two chains would not do.
        let mut stated: i64 = 0;
        let mut confirmed: i64 = 0;
        for b in 0..self.groups {
            if b == a {
                continue;
            }
            let turn = self.between(a, b, t);
            stated += turn.stated;
            confirmed += turn.confirmed;
        }
        TradeSums { stated, confirmed }
    }
}
