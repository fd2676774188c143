//! The second advance of a day, at which marks, stages and penalties are fixed.
ghost use Rattle.std.specs.Prelude.{◌≡◌, ◌+◌, ◌*◌, ◌^◌, ◌<◌, ◌≤◌, length};
ghost use Rattle.settlement.specs.declared.phase.Phase.TheVariants.{Ahead, Near};
ghost use Rattle.forms.specs.Calendar.{year_days};
ghost use Rattle.forms.specs.Openings.{terms_in};
ghost use Rattle.stage.specs.Marked.{marks_of};
ghost use Rattle.book.specs.Cuts.{charged, cut_off, in_phase, advanced};
ghost use Rattle.book.specs.Kept.{most_penalty, days_in, penalties_in};
ghost use Rattle.book.specs.SheetWords.{words_in};
ghost use Rattle.book.specs.States.{state_of, account_of};

use crate::group_account::GroupAccount;
use crate::ledger::Ledger;
use crate::open_day::OpenDay;
use crate::opened::Opened;
use crate::sheet_words::SheetWords;
use forms::bounds::MOST_GROUPS;
use forms::fault::Fault;
use forms::terms::Opening;
use settlement::amounts::{penalty, row_for};
use settlement::confirmed_day::ConfirmedDay;
use settlement::phase::Phase;
use settlement::sheet::WORDS_PER_SLOT;
use stage::rule::StageRule;

impl GroupAccount {
    /// The account once the day's excess is known.
    fn charged<R: StageRule>(&self, rule: &R, opening: &Opening, energy: u64) -> GroupAccount
        requires room { (length (marks_of self.now.marks) < year_days) × (self.now.penalties ≤ year_days * most_penalty) }
        requires energy { energy < 2 ^ 44 }
        ensures value { account_of result ≡ charged (R.meaning rule.now) (terms_in opening.now).tariff (account_of self.now) energy }
        ensures days { days_in result ≡ days_in self.now + 1 }
        ensures penalties { penalties_in result ≤ penalties_in self.now + most_penalty }
        ensures balance { result.balance ≡ self.now.balance }
    {
        let mut marks = self.marks;
        marks.push(energy > 0);
        let stage = rule.stage(&marks);
        let due = penalty(row_for(opening.tariff(), stage), energy);
        GroupAccount {
            marks,
            due,
            penalties: self.penalties + due,
            ..*self
        }
    }
}

impl OpenDay<'_, '_> {
    /// The ledger past the cut-off of the day.
    fn cut_off<R: StageRule>(&self, rule: &R) -> Ledger
        requires { (self.now.ledger.now.phase ≡ Near) × (self.now.ledger.now.closed < year_days) }
        ensures { state_of result ≡ cut_off (R.meaning rule.now) (state_of self.now.ledger.now) self.now.sheet.now }
    {
        let ledger = self.ledger;
        let sheet = self.on_sheet();
        let mut taken = [[0; WORDS_PER_SLOT]; MOST_GROUPS];
        let mut given = [[0; WORDS_PER_SLOT]; MOST_GROUPS];
        sheet.add_confirmed(&mut taken, &mut given);
        let day = ConfirmedDay {
            sheet,
            taken: &taken,
            given: &given,
        };
        let quarters = ledger.quarters() as usize;
        let mut accounts = ledger.accounts;
        for (a, account) in accounts[..ledger.groups()].iter_mut().enumerate() {
            let energy = day.excess(&ledger.figures(a), a, quarters);
            *account = ledger.account(a).charged(rule, &ledger.opening, energy);
        }
        let mut next = *ledger;
        next.phase = Phase::After;
        next.accounts = accounts;
        next
    }
}

impl Ledger {
    /// The ledger in the phase near.
    fn nearer(&self) -> Ledger
        requires { self.now.phase ≡ Ahead }
        ensures { state_of result ≡ in_phase (state_of self.now) Near }
    {
        let mut next = *self;
        next.phase = Phase::Near;
        next
    }
}

impl<R: StageRule> Opened<R> {
    /// Moves the phase; the second advance of a day is its cut-off.
    pub(crate) fn advance(&mut self, sheet: SheetWords<'_>) -> Result<(), Fault>
        ensures book { (result, state_of self.new.ledger) ≡ advanced (R.meaning self.old.rule) (state_of self.old.ledger) (words_in sheet.entry) }
        ensures rule { self.new.rule ≡ self.old.rule }
    {
        // The phase is an enum; a table of functions would be no plainer than this match.
        self.ledger = match self.ledger.phase {
            Phase::Ahead => self.ledger.open_day(sheet)?.ledger.nearer(),
            Phase::Near => self.ledger.open_day(sheet)?.cut_off(&self.rule),
            Phase::After => return Err(Fault::WrongPhase),
        };
        Ok(())
    }
}
