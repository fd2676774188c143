//! What the sizes and the figures of a form may come to.

/// The fewest groups of a book.
pub const LEAST_GROUPS: usize = 2;

/// The most groups of a book.
pub const MOST_GROUPS: usize = 16;

/// The fewest rows of a tariff.
pub const LEAST_ROWS: usize = 1;

/// The most rows of a tariff.
pub const MOST_ROWS: usize = 10;

/// The largest power, in kW.
pub const POWER_BOUND: u32 = 10_000_000;

/// The largest fee of a tariff row, in cents.
pub const FEE_BOUND: u32 = 100_000_000;

/// The largest rate of a tariff row, in cents per MWh.
pub const RATE_BOUND: u32 = 1_000_000;

/// The largest price, above zero or below it, in cents per MWh.
pub const PRICE_BOUND: u32 = 1_000_000;
