//! What a close writes for each group.
ghost use Rattle.book.specs.Rows.{shown_row};
ghost use Rattle.std.specs.Prelude.{Some};

use std::fmt;

/// One group's day, as the close of that day gives it. Days and groups count from 1, money is in cents.
#[derive(Clone, Copy)]
pub struct ResultRow {
    pub day: u16,
    pub group: u8,
    pub mark: bool,
    pub stage: u16,
    pub penalty: u64,
    pub balance: i64,
}

impl ResultRow {
    /// A row that holds nothing yet. `Default` would be a second name for it.
    pub const BLANK: ResultRow = ResultRow {
        day: 0,
        group: 0,
        mark: false,
        stage: 0,
        penalty: 0,
        balance: 0,
    };
}

impl fmt::Display for ResultRow {
    ghost output = { λ r. Some (shown_row r) };

    fn fmt<W: fmt::Write>(&self, f: &mut fmt::Formatter<W>) -> fmt::Result {
        let day = self.day;
        let group = self.group;
        let mark = u8::from(self.mark);
        let stage = self.stage;
        let penalty = self.penalty;
        let balance = self.balance;
        write!(f, "{day} {group} {mark} {stage} {penalty} {balance}")
    }
}
