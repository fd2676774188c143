//! What a stage rule is.
ghost use Rattle.std.specs.Prelude.{◌≡◌, ℕ, Bool, List};
ghost use Rattle.stage.specs.Laws.{Bounded, Monotone};
ghost use Rattle.stage.specs.Marked.{marks_of};

use crate::marks::Marks;

/// A rule that makes a stage, 0 to 366, of one group's marks from day 1 to a given day.
/// Its meaning is that number as a function of the marks alone. Marking more of the same days
/// never lowers it.
pub trait StageRule {
    ghost meaning: { Self → List Bool → ℕ };

    /// The stage on the last day of the marks.
    fn stage(&self, marks: &Marks) -> u16
        ensures { result ≡ meaning self.now (marks_of marks.now) };

    ghost bounded: { (s : Self) → Bounded (meaning s) };

    ghost monotone: { (s : Self) → Monotone (meaning s) };
}
