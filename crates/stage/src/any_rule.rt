//! The rules that a rule form can ask for.
ghost use Rattle.std.specs.Prelude.{◌≡◌};
ghost use Rattle.stage.specs.Asked.{meaning_of, asked, rule_asked, meaning_made};
ghost use Rattle.stage.specs.LawProofs.Lawful.{any_bounded, any_monotone};

use crate::marks::Marks;
use crate::rolling::Rolling;
use crate::rule::StageRule;
use crate::run::Run;
use forms::fault::Fault;
use forms::rule_form::{RuleForm, read_rule};

/// One of the rules.
#[derive(Clone, Copy)]
pub enum AnyRule {
    Rolling(Rolling),
    Run(Run),
}

impl StageRule for AnyRule {
    ghost meaning = { meaning_of };

    ghost bounded = { any_bounded };

    ghost monotone = { any_monotone };

    fn stage(&self, marks: &Marks) -> u16 {
        match self {
            AnyRule::Rolling(rule) => rule.stage(marks),
            AnyRule::Run(rule) => rule.stage(marks),
        }
    }
}

impl From<RuleForm> for AnyRule {
    ghost from_gives = { λ form rule. meaning_of rule ≡ asked form };

    fn from(form: RuleForm) -> AnyRule {
        match form {
            RuleForm::Rolling(window) => AnyRule::Rolling(Rolling::new(window)),
            RuleForm::Run(gap) => AnyRule::Run(Run::new(gap)),
        }
    }
}

/// Makes the rule that the rule form asks for.
pub fn rule(form: &[u8]) -> Result<AnyRule, Fault>
    ensures { meaning_made result ≡ rule_asked form.now }
{
    read_rule(form).map(AnyRule::from)
}
