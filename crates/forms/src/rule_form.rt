//! The rule form: one byte kind and a 16-bit number.
ghost use Rattle.std.specs.Prelude.{◌≡◌};
ghost use Rattle.forms.specs.RuleForms.{rule_of};

use crate::bytes::be16_at;
use crate::calendar::DAYS;
use crate::fault::Fault;

/// The length of a rule form.
pub const RULE_FORM: usize = 3;

/// The kind of the rolling rule.
const ROLLING: u8 = 1;

/// The kind of the run rule.
const RUN: u8 = 2;

/// A lawful rule form, by its kind and its number of days.
#[derive(Clone, Copy)]
pub enum RuleForm {
    Rolling(u16),
    Run(u16),
}

/// Reads a rule form.
pub fn read_rule(form: &[u8]) -> Result<RuleForm, Fault>
    ensures { result ≡ rule_of form.now }
{
    if form.len() < RULE_FORM {
        return Err(Fault::ShortForm);
    }
    if form.len() != RULE_FORM {
        return Err(Fault::WrongLength);
    }
    match (form[0], be16_at(form, 1)) {
        (ROLLING, days @ 1..=DAYS) => Ok(RuleForm::Rolling(days)),
        (RUN, days @ 1..=DAYS) => Ok(RuleForm::Run(days)),
        _ => Err(Fault::UnlawfulTariff { place: 0 }),
    }
}
