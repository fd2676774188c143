//! What the ledger keeps for one group.
use stage::marks::Marks;

/// One group's version of the day, marks and totals. Money is in cents.
#[derive(Clone, Copy)]
pub struct GroupAccount {
    /// The version of the last message accepted today, 0 if there is none, so that the next is always
    /// one more.
    pub version: u16,
    /// The marks of the days past their cut-off.
    pub marks: Marks,
    /// The penalty that was fixed at today's cut-off.
    pub due: u64,
    /// All penalties up to the last cut-off.
    pub penalties: u64,
    /// All balance amounts up to the last close.
    pub balance: i64,
}
