//! Checks that follow one another.
ghost use Rattle.std.specs.Prelude.{ℕ, ◌<◌};
ghost use Rattle.forms.specs.Checks.{EarliestAnswers, InOrder};

use crate::fault::Fault;

/// Checks 0, 1, .., `count` - 1 in this order: the first fault answers.
pub fn in_order<F: Fn(u8) -> Result<(), Fault>>(count: u8, check: F) -> Result<(), Fault>
    requires { (i : ℕ) → i < count → F.pre check i }
    ensures { InOrder (F.post check) count result }
{
    for i in 0..count {
        check(i)?;
    }
    Ok(())
}

/// Checks that run series by series, and in each series quarter hour by quarter hour, answer the
/// earliest series, and in it the earliest quarter hour. The contract is that theorem.
#[tactic(auto, using(crate::proofs::Firsts::earliest_answers))]
pub fn earliest_answers()
    ensures { EarliestAnswers }
{}
