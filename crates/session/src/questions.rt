//! What a session's book answers, asked on the session's own sheet. No question changes anything.
ghost use Rattle.std.specs.Prelude.{◌≡◌};
ghost use Rattle.book.specs.Calls.{asks_position, asks_trade, asks_standing, asks_total, groups_in, days_cut_in};
ghost use Rattle.book.specs.Queries.{standing_of, total_of};
ghost use Rattle.session.specs.Views.{view_of};

use crate::session::Session;
use book::answers::{Standing, Total};
use forms::fault::Fault;

impl Session {
    /// How many groups the open book has, 0 where none is open.
    pub fn groups(&self) -> u16
        ensures { result ≡ groups_in (view_of self.now).place }
    {
        self.book.groups()
    }

    /// How many days are past their cut-off, 0 where no book is open.
    pub fn cut_offs(&self) -> u16
        ensures { result ≡ days_cut_in (view_of self.now).place }
    {
        self.book.cut_offs()
    }

    /// Stated open position, confirmed open position and confirmed net purchases of a group at a
    /// quarter hour.
    pub fn position(&self, group: u16, quarter: u16) -> Result<(i64, i64, i64), Fault>
        ensures { result ≡ asks_position (view_of self.now).place (view_of self.now).sheet group quarter }
    {
        self.book.position_on(&self.sheet, group, quarter)
    }

    /// The confirmed trade from one group to another at a quarter hour.
    pub fn trade(&self, from: u16, to: u16, quarter: u16) -> Result<u32, Fault>
        ensures { result ≡ asks_trade (view_of self.now).place (view_of self.now).sheet from to quarter }
    {
        self.book.trade_on(&self.sheet, from, to, quarter)
    }

    /// A group's mark and stage on a day past its cut-off.
    pub fn standing(&self, group: u16, day: u16) -> Result<Standing, Fault>
        ensures { standing_of result ≡ asks_standing (λ m. m) (view_of self.now).place group day }
    {
        self.book.standing(group, day)
    }

    /// A group's penalties up to the last cut-off and its balance up to the last close.
    pub fn total(&self, group: u16) -> Result<Total, Fault>
        ensures { total_of result ≡ asks_total (view_of self.now).place group }
    {
        self.book.total(group)
    }
}
