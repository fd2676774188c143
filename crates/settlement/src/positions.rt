//! Open positions and how far they lie beyond a limit.
ghost use Rattle.std.specs.Prelude.{◌≡◌, ◌^◌, ◌<◌, ◌≤◌, unsigned_abs};
ghost use Rattle.forms.specs.Figures.{figures_of};
ghost use Rattle.settlement.specs.Sheets.{words_per_slot};
ghost use Rattle.settlement.specs.Statements.{sent_on};
ghost use Rattle.settlement.specs.Positions.{net_purchases, open_position, stated_open, confirmed_open, limit_for, excess, no_farther};

use crate::phase::Phase;
use crate::sheet::WholeSheet;
use crate::trades::TradeSums;
use forms::group::Group;
use forms::slot::Slot;

/// How far a check value lies below minus the production maximum (short, below zero) or above the pump depth
/// (long); 0 between them.
pub fn open_position(figures: &Group, value: i64) -> i64
    requires { unsigned_abs value < 2 ^ 40 }
    ensures value { result ≡ open_position (figures_of figures.now) value }
    ensures bound { unsigned_abs result ≤ unsigned_abs value }
{
    let most = i64::from(figures.prod_max);
    let depth = i64::from(figures.pump_depth);
    if value < -most {
        value + most
    } else if value > depth {
        value - depth
    } else {
        0
    }
}

/// The limit that applies to an open position in a phase.
pub(crate) fn limit_for(figures: &Group, phase: Phase, position: i64) -> u32
    ensures { result ≡ limit_for (figures_of figures.now) phase position }
{
    // The one place that would look at the position if the limits of the two sides ever differed.
    let _ = position;
    match phase {
        Phase::Ahead => figures.limits.ahead,
        Phase::Near => figures.limits.near,
        Phase::After => figures.limits.after,
    }
}

/// How far an open position lies beyond the limit that applies to it.
pub fn excess(figures: &Group, phase: Phase, position: i64) -> u64
    ensures value { result ≡ excess (figures_of figures.now) phase position }
    ensures bound { result ≤ unsigned_abs position }
{
    let limit = limit_for(figures, phase, position);
    position.unsigned_abs().saturating_sub(u64::from(limit))
}

/// Whether `position` is no farther out than `other`, which is at least as far from zero.
pub fn no_farther(position: i64, other: i64) -> bool
    ensures { result ≡ no_farther position other }
{
    position.unsigned_abs() <= other.unsigned_abs()
}

impl WholeSheet<'_, '_> {
    /// Group `a`'s stated open position, its confirmed open position and its confirmed net purchases.
    pub fn position(&self, figures: &Group, a: usize, t: usize) -> (i64, i64, i64)
        requires { (a < self.now.groups) × (t < words_per_slot) }
        ensures stated { result.0 ≡ stated_open (sent_on self.now) (figures_of figures.now) self.now.groups t a }
        ensures confirmed { result.1 ≡ confirmed_open (sent_on self.now) (figures_of figures.now) self.now.groups t a }
        ensures net { result.2 ≡ net_purchases (sent_on self.now) self.now.groups t a }
        ensures bound { (unsigned_abs result.0 ≤ 2 ^ 37) × ((unsigned_abs result.1 ≤ 2 ^ 37) × (unsigned_abs result.2 ≤ 2 ^ 37)) }
    {
        let TradeSums { stated, confirmed } = self.sums(a, t);
        let consumption = i64::from(self.value(a, Slot::Cons, t));
        (
            open_position(figures, stated - consumption),
            open_position(figures, confirmed - consumption),
            confirmed,
        )
    }
}
