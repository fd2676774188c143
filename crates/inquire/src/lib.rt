//! The table of what a book answers at the end of a session, and the program that prints it.
#![tactic(auto)]

mod answer;
pub mod arguments;
pub mod inquiry;
pub mod line;
pub mod table;
