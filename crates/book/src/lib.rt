//! The book: days of one control area, one after another, for 2 to 16 balance groups.
//!
//! A function that is given the number of a group, a slot or a quarter hour asks that it is there, as
//! an index is asked to be in range, and one that adds, that the sum has room: types for such numbers
//! would be no plainer.
#![tactic(auto)]

pub mod answers;
pub mod begin;
pub mod beyond;
pub mod book;
pub mod close;
pub mod closing_day;
pub mod complete;
pub mod cut_off;
pub mod group_account;
pub mod growth;
pub mod lawful_sheet;
pub mod lay;
pub mod ledger;
pub mod meant;
pub mod open_day;
pub mod opened;
mod prices;
pub mod queries;
pub mod result_row;
pub mod sending;
mod settled_day;
mod sheet_words;
pub mod submit;
pub mod today;
pub mod whole_sheet;
pub mod worked_figures;
