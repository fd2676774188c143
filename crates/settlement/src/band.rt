//! Which check values lie beyond a limit.
ghost use Rattle.std.specs.Prelude.{◌≡◌};
ghost use Rattle.forms.specs.Figures.{figures_of};
ghost use Rattle.settlement.specs.Bands.{is_outside, IsBandOf};

use crate::phase::Phase;
use crate::positions::limit_for;
use forms::group::Group;

/// No check value of a day's sums is farther from zero: 2^30.
const FARTHEST: u64 = 1 << 30;

/// A check value below the one or above the other, and no other, has an open position beyond a limit.
/// They have 32 bits, as the sums have, so that a pass over a day takes four at a time.
#[derive(Clone, Copy)]
pub struct Band {
    pub low: i32,
    pub high: i32,
}

impl Band {
    /// The band of a group in a phase.
    pub fn new(figures: &Group, phase: Phase) -> Band
        ensures { IsBandOf (figures_of figures.now) phase result }
    {
        let short = u64::from(limit_for(figures, phase, -1));
        let long = u64::from(limit_for(figures, phase, 1));
        let below = (u64::from(figures.prod_max) + short).min(FARTHEST);
        let above = (u64::from(figures.pump_depth) + long).min(FARTHEST);
        Band {
            low: -(below as i32),
            high: above as i32,
        }
    }

    /// Whether the open position of a check value is beyond the limit.
    pub fn is_outside(&self, check: i32) -> bool
        ensures { result ≡ is_outside self.now check }
    {
        (check > self.high) | (check < self.low)
    }
}
