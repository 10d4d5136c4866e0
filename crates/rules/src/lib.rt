// The rules of the settlement: the rows of a book, its refusals and positions, and the theorems over every list of calls.
#![tactic(auto)]

pub mod answers;
pub mod calendar;
pub mod class;
pub mod entry;
pub mod laws;
pub mod position;
pub mod refusal;
pub mod rows;
pub mod ticket;
pub mod values;
