//! A closing form of the right length, and what it says. Groups, series and quarter hours count from 0
//! here; in a fault they count from 1.
ghost use Rattle.std.specs.Prelude.{◌≡◌, ◌+◌, ◌<◌};
ghost use Rattle.forms.specs.Checks.{each_of};
ghost use Rattle.forms.specs.Closings.{ClosingFormed, closing_series, closing_value, feed_in, long_price, short_price, value_bound, value_check, closing_series_check, closing_check};

use crate::bounds::{POWER_BOUND, PRICE_BOUND};
use crate::bytes::signed32_at;
use crate::checks::in_order;
use crate::closing::{CLOSING_HEADER, VALUE_BYTES};
use crate::fault::Fault;

/// A closing form in its bytes, as long as the sizes of the book and the day give.
#[derive(Clone, Copy)]
pub struct ClosingForm<'a> {
    pub(crate) bytes: &'a [u8],
    pub(crate) groups: u8,
    pub(crate) quarters: u8,
    ghost formed: { ClosingFormed groups quarters bytes.now },
}

impl<'a> ClosingForm<'a> {
    /// The number of series `i` at quarter hour `t`: feed-ins of the groups, long prices, short prices.
    fn value(&self, i: usize, t: usize) -> i32
        requires { (i < closing_series self.now.groups) × (t < self.now.quarters) }
        ensures { result ≡ closing_value self.now.quarters self.now.bytes.now i t }
    {
        signed32_at(
            self.bytes,
            CLOSING_HEADER + VALUE_BYTES * (i * self.quarters as usize + t),
        )
    }

    /// What group `a` fed in at quarter hour `t`, in kW.
    pub fn feed_in(&self, a: usize, t: usize) -> i32
        requires { (a < self.now.groups) × (t < self.now.quarters) }
        ensures { result ≡ feed_in self.now.quarters self.now.bytes.now a t }
    {
        self.value(a, t)
    }

    /// The long price at quarter hour `t`, in cents per MWh.
    pub fn long_price(&self, t: usize) -> i32
        requires { t < self.now.quarters }
        ensures { result ≡ long_price self.now.groups self.now.quarters self.now.bytes.now t }
    {
        self.value(self.groups as usize, t)
    }

    /// The short price at quarter hour `t`, in cents per MWh.
    pub fn short_price(&self, t: usize) -> i32
        requires { t < self.now.quarters }
        ensures { result ≡ short_price self.now.groups self.now.quarters self.now.bytes.now t }
    {
        self.value(self.groups as usize + 1, t)
    }

    /// The number of series `i` at quarter hour `t` is no farther from zero than the bound.
    fn check_value(&self, i: usize, t: u8, bound: u32) -> Result<(), Fault>
        requires within { (i < closing_series self.now.groups) × (t < self.now.quarters) }
        requires bound { bound ≡ value_bound self.now.groups i }
        ensures { result ≡ value_check self.now.groups self.now.quarters self.now.bytes.now i t }
    {
        if self.value(i, t as usize).unsigned_abs() > bound {
            return Err(Fault::OutOfRange {
                series: i as u16 + 1,
                quarter: u16::from(t) + 1,
            });
        }
        Ok(())
    }

    /// Every quarter hour of one series.
    #[tactic(auto, using(crate::proofs::Firsts::each_in_order))]
    fn check_series(&self, i: usize, bound: u32) -> Result<(), Fault>
        requires within { i < closing_series self.now.groups }
        requires bound { bound ≡ value_bound self.now.groups i }
        ensures { result ≡ closing_series_check self.now.groups self.now.quarters self.now.bytes.now i }
    {
        in_order(self.quarters, |t| self.check_value(i, t, bound))
    }

    /// The feed-ins of every group.
    #[tactic(auto, using(crate::proofs::Firsts::each_in_order))]
    fn check_feed_ins(&self) -> Result<(), Fault>
        ensures { result ≡ each_of (closing_series_check self.now.groups self.now.quarters self.now.bytes.now) self.now.groups }
    {
        in_order(self.groups, |a| self.check_series(a as usize, POWER_BOUND))
    }

    /// Refuses a form with a feed-in or a price out of range: the earliest series, and in it the
    /// earliest quarter hour.
    #[tactic(auto, using(crate::proofs::ClosingLaws::closing_parts))]
    pub fn check_values(&self) -> Result<(), Fault>
        ensures { result ≡ closing_check self.now.groups self.now.quarters self.now.bytes.now }
    {
        self.check_feed_ins()?;
        let long = self.groups as usize;
        self.check_series(long, PRICE_BOUND)?;
        self.check_series(long + 1, PRICE_BOUND)
    }
}
