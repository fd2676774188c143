//! The rule that counts on until a gap.
ghost use Rattle.std.specs.Prelude.{◌≡◌};
ghost use Rattle.stage.specs.Rules.{run};
ghost use Rattle.stage.specs.LawProofs.Lawful.{run_bounded, run_monotone};

use crate::marks::Marks;
use crate::rule::StageRule;

/// Counts the marked days after which no `gap` unmarked days in a row lie, up to the given day.
#[derive(Clone, Copy)]
pub struct Run {
    gap: u16,
}

impl Run {
    /// The rule with this gap. A gap of 0 lies after every day, so no day counts.
    pub fn new(gap: u16) -> Run
        ensures { result.gap ≡ gap }
    {
        Run { gap }
    }
}

impl StageRule for Run {
    ghost meaning = { λ s. run s.gap };

    ghost bounded = { run_bounded };

    ghost monotone = { run_monotone };

    fn stage(&self, marks: &Marks) -> u16 {
        // A fold over both numbers would be no plainer.
        let mut count = 0;
        let mut idle = 0;
        for day in 1..=marks.days() {
            if marks.marked(day) {
                count += 1;
                idle = 0;
            } else {
                idle += 1;
            }
            if idle >= self.gap {
                count = 0;
            }
        }
        count
    }
}
