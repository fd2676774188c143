//! Positions, penalties and balance amounts out of the sheet.
#![tactic(auto)]

pub mod amounts;
pub mod band;
pub mod confirmed_day;
pub mod day;
pub mod held;
pub mod phase;
pub mod positions;
pub mod sheet;
pub mod theorems;
pub mod trades;
pub mod words;
