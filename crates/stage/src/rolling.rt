//! The rule that looks back over a window of days.
ghost use Rattle.std.specs.Prelude.{◌≡◌};
ghost use Rattle.stage.specs.Rules.{rolling};
ghost use Rattle.stage.specs.LawProofs.Lawful.{rolling_bounded, rolling_monotone};

use crate::marks::Marks;
use crate::rule::StageRule;

/// Counts the marked days among the given day and the `window - 1` days before it.
#[derive(Clone, Copy)]
pub struct Rolling {
    window: u16,
}

impl Rolling {
    /// The rule with this window. A window of 0 holds no day.
    pub fn new(window: u16) -> Rolling
        ensures { result.window ≡ window }
    {
        Rolling { window }
    }
}

impl StageRule for Rolling {
    ghost meaning = { λ s. rolling s.window };

    ghost bounded = { rolling_bounded };

    ghost monotone = { rolling_monotone };

    fn stage(&self, marks: &Marks) -> u16 {
        let last = marks.days();
        let first = last.saturating_sub(self.window) + 1;
        (first..=last).filter(|&day| marks.marked(day)).count() as u16
    }
}
