//! Questions: they change nothing.
ghost use Rattle.forms.specs.Checks.{refuse_if};
ghost use Rattle.std.specs.Prelude.{not, ◌≡◌, ◌+◌, ◌<◌};
ghost use Rattle.book.specs.Kept.{cut_offs};
ghost use Rattle.std.specs.Int.{is_in_range};
ghost use Rattle.book.specs.SheetWords.{words_in};
ghost use Rattle.book.specs.Queries.{Numbered, group_check, quarter_check, position_answer, trade_answer, standing_answer, total_answer, standing_of, total_of};
ghost use Rattle.book.specs.States.{state_of, size, day_quarters};

use crate::answers::{Standing, Total};
use crate::ledger::Ledger;
use crate::opened::Opened;
use crate::sheet_words::SheetWords;
use forms::fault::Fault;
use settlement::phase::Phase;
use stage::rule::StageRule;

/// The place, from 0, of a number from 1 to `most`, or the fault.
fn numbered(number: u16, most: usize, fault: Fault) -> Result<usize, Fault>
    ensures { Numbered result (refuse_if (not (is_in_range 1 most number)) fault) number most }
{
    usize::from(number)
        .checked_sub(1)
        .filter(|&place| place < most)
        .ok_or(fault)
}

impl Ledger {
    /// The place, from 0, of a group's number.
    pub(crate) fn check_group(&self, group: u16) -> Result<usize, Fault>
        ensures { Numbered result (group_check (state_of self.now) group) group (size (state_of self.now)) }
    {
        numbered(group, self.groups(), Fault::WrongGroup)
    }

    /// The place, from 0, of a quarter hour's number.
    pub(crate) fn check_quarter(&self, quarter: u16) -> Result<usize, Fault>
        ensures { Numbered result (quarter_check (state_of self.now) quarter) quarter (day_quarters (state_of self.now)) }
    {
        // It is in no series: places that do not apply are printed as 0.
        let unknown = Fault::OutOfRange {
            series: 0,
            quarter: 0,
        };
        numbered(quarter, usize::from(self.quarters()), unknown)
    }

    /// Stated open position, confirmed open position and confirmed net purchases.
    pub(crate) fn position(
        &self,
        sheet: SheetWords<'_>,
        group: u16,
        quarter: u16,
    ) -> Result<(i64, i64, i64), Fault>
        ensures { result ≡ position_answer (state_of self.now) (words_in sheet.entry) group quarter }
    {
        let day = self.open_day(sheet)?;
        let a = self.check_group(group)?;
        let t = self.check_quarter(quarter)?;
        Ok(day.on_sheet().position(&self.figures(a), a, t))
    }

    // As in `Book::trade`, the numbers come one by one.
    /// The confirmed trade from one group to another.
    pub(crate) fn trade(
        &self,
        sheet: SheetWords<'_>,
        from: u16,
        to: u16,
        quarter: u16,
    ) -> Result<u32, Fault>
        ensures { result ≡ trade_answer (state_of self.now) (words_in sheet.entry) from to quarter }
    {
        let day = self.open_day(sheet)?;
        let a = self.check_group(from)?;
        let b = self.check_group(to)?;
        if a == b {
            return Err(Fault::WrongGroup);
        }
        let t = self.check_quarter(quarter)?;
        Ok(day.on_sheet().trade(a, b, t))
    }

    /// A group's penalties and balance so far.
    pub(crate) fn total(&self, group: u16) -> Result<Total, Fault>
        ensures { total_of result ≡ total_answer (state_of self.now) group }
    {
        let a = self.check_group(group)?;
        let account = self.account(a);
        Ok(Total {
            penalties: account.penalties,
            balance: account.balance,
        })
    }

    /// How many days are past their cut-off.
    pub(crate) fn cut_offs(&self) -> u16
        ensures { result ≡ cut_offs self.now.closed self.now.phase }
    {
        match self.phase {
            Phase::Ahead | Phase::Near => self.closed,
            Phase::After => self.closed + 1,
        }
    }
}

impl<R: StageRule> Opened<R> {
    /// A group's mark and stage on a day past its cut-off.
    pub(crate) fn standing(&self, group: u16, day: u16) -> Result<Standing, Fault>
        ensures { standing_of result ≡ standing_answer (R.meaning self.now.rule) (state_of self.now.ledger) group day }
    {
        let a = self.ledger.check_group(group)?;
        numbered(day, usize::from(self.ledger.cut_offs()), Fault::WrongDay)?;
        let marks = self.ledger.account(a).marks.first(day);
        Ok(Standing {
            mark: marks.marked(day),
            stage: self.rule.stage(&marks),
        })
    }
}
