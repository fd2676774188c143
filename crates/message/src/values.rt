//! Which values a message may have.
ghost use Rattle.std.specs.Prelude.{◌≡◌, ◌<◌, ◌&&◌, nat_lt, is_ok, false};
ghost use Rattle.forms.specs.Checks.{refuse_if};
ghost use Rattle.message.specs.Form.{series_count, value_at};
ghost use Rattle.message.specs.Values.{in_series, in_message, range_check, forecast_check, opposed_check, values_check};

use crate::by_slot::SeriesBySlot;
use crate::scan::Scan;
use crate::series::{Direction, Series};
use crate::{Message, place};
use forms::bounds::POWER_BOUND;
use forms::checks::in_order;
use forms::fault::Fault;
use forms::slot::Slot;

impl Message<'_> {
    /// Whether no value of series `i` is above the bound, in one plain pass.
    fn is_within(&self, i: u8) -> bool
        requires { i < series_count self.now.bytes.now }
        ensures { result ≡ is_ok (in_series self.now.quarters (range_check self.now.quarters self.now.bytes.now) i) }
    {
        // `all` would leave early, and the pass would not be a plain one.
        let mut within = true;
        for word in self.words(i) {
            within &= u32::from_be_bytes(*word) <= POWER_BOUND;
        }
        within
    }

    // A struct for a bound and its fault would be made at each of two calls.
    /// The value of series `i` at `t` is not above `most`, or else this fault.
    fn check_most(&self, i: u8, t: u8, most: u32, fault: Fault) -> Result<(), Fault>
        requires there { i < series_count self.now.bytes.now }
        requires within { t < self.now.quarters }
        ensures { result ≡ refuse_if (nat_lt most (value_at self.now.quarters self.now.bytes.now i t)) fault }
    {
        if self.value(i, t) > most {
            return Err(fault);
        }
        Ok(())
    }

    /// No value of series `i` is above the bound.
    #[tactic(auto, using(forms::proofs::Firsts::each_in_order))]
    fn check_range(&self, i: u8) -> Result<(), Fault>
        requires { i < series_count self.now.bytes.now }
        ensures { result ≡ in_series self.now.quarters (range_check self.now.quarters self.now.bytes.now) i }
    {
        if self.is_within(i) {
            return Ok(());
        }
        in_order(self.quarters, |t| {
            let (series, quarter) = (place(i), place(t));
            self.check_most(i, t, POWER_BOUND, Fault::OutOfRange { series, quarter })
        })
    }
}

impl SeriesBySlot<'_> {
    /// Series `i` is no forecast above 0.
    #[tactic(auto, using(forms::proofs::Firsts::each_in_order, crate::proofs::Passes::forecast_other))]
    fn check_forecast(&self, i: u8) -> Result<(), Fault>
        requires { i < series_count self.now.message.bytes.now }
        ensures { result ≡ in_series self.now.message.quarters (forecast_check self.now.message.quarters false self.now.message.bytes.now) i }
    {
        let Some(Series::Forecast { place: series, .. }) = self.message.series(i) else {
            return Ok(());
        };
        in_order(self.message.quarters, |t| {
            let quarter = place(t);
            self.message
                .check_most(i, t, 0, Fault::UnmeteredForecast { series, quarter })
        })
    }

    /// The series `i` and `opposite` are not both above 0 at `t`, or else this fault.
    fn check_unopposed(&self, i: u8, opposite: u8, t: u8, fault: Fault) -> Result<(), Fault>
        requires there { (i < series_count self.now.message.bytes.now) × (opposite < series_count self.now.message.bytes.now) }
        requires within { t < self.now.message.quarters }
        ensures { result ≡ refuse_if (nat_lt 0 (value_at self.now.message.quarters self.now.message.bytes.now i t) && nat_lt 0 (value_at self.now.message.quarters self.now.message.bytes.now opposite t)) fault }
    {
        if self.message.value(i, t) > 0 && self.message.value(opposite, t) > 0 {
            return Err(fault);
        }
        Ok(())
    }

    /// Series `i` is no trade out with a trade in from the same group at once. The out series is
    /// named.
    #[tactic(auto, using(forms::proofs::Firsts::each_in_order, crate::proofs::Passes::opposed_other, crate::proofs::Passes::opposed_alone))]
    fn check_trade(&self, i: u8) -> Result<(), Fault>
        requires { i < series_count self.now.message.bytes.now }
        ensures { result ≡ in_series self.now.message.quarters (opposed_check self.now.message.quarters self.now.message.bytes.now) i }
    {
        let Some(
            Series::Trade {
                direction: Direction::Out,
                counter,
                place: series,
                ..
            },
        ) = self.message.series(i)
        else {
            return Ok(());
        };
        let Some(opposite) = self.find(Slot::InFrom(counter - 1)) else {
            return Ok(());
        };
        in_order(self.message.quarters, |t| {
            let quarter = place(t);
            self.check_unopposed(i, opposite, t, Fault::OpposedTrades { series, quarter })
        })
    }

    /// No value is above the bound, a group without metering points forecasts nothing above 0, and
    /// no trades out to a group and in from it are above 0 at once.
    pub fn check_values(&self, metered: bool) -> Result<(), Fault>
        ensures { result ≡ values_check self.now.message.quarters metered self.now.message.bytes.now }
    {
        let scan = self.scan();
        scan.check_ranges()?;
        scan.check_forecasts(metered)?;
        scan.check_trades()
    }
}

// Where the pass finds nothing, no test fails; else the message is gone through, to name the earliest.
impl Scan<'_, '_> {
    /// No value of the message is above the bound. Where all their bits together are not, none is.
    #[tactic(auto, using(forms::proofs::Firsts::each_in_order))]
    fn check_ranges(&self) -> Result<(), Fault>
        ensures { result ≡ in_message self.now.series.now.message.quarters self.now.series.now.message.bytes.now (range_check self.now.series.now.message.quarters self.now.series.now.message.bytes.now) }
    {
        if self.trades <= POWER_BOUND && self.forecasts <= POWER_BOUND {
            return Ok(());
        }
        let message = self.series.message();
        in_order(message.count(), |i| message.check_range(i))
    }

    /// No series is a forecast above 0 of a group without metering points.
    #[tactic(auto, using(forms::proofs::Firsts::each_in_order))]
    fn check_forecasts(&self, metered: bool) -> Result<(), Fault>
        ensures { result ≡ in_message self.now.series.now.message.quarters self.now.series.now.message.bytes.now (forecast_check self.now.series.now.message.quarters metered self.now.series.now.message.bytes.now) }
    {
        if metered || self.forecasts == 0 {
            return Ok(());
        }
        let series = self.series;
        in_order(series.message().count(), |i| series.check_forecast(i))
    }

    /// No trade out has a trade in from the same group at once.
    #[tactic(auto, using(forms::proofs::Firsts::each_in_order))]
    fn check_trades(&self) -> Result<(), Fault>
        ensures { result ≡ in_message self.now.series.now.message.quarters self.now.series.now.message.bytes.now (opposed_check self.now.series.now.message.quarters self.now.series.now.message.bytes.now) }
    {
        if self.apart {
            return Ok(());
        }
        let series = self.series;
        in_order(series.message().count(), |i| series.check_trade(i))
    }
}
