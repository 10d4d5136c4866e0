// Texts of lines and fields: where a text is cut, what its fields say, how lines are read with the place of each field,
// and writing.
#![tactic(auto)]

mod cuts;
pub mod faults;
mod numbers;
pub mod reader;
mod values;
pub mod writing;

pub use cuts::{Lines, cut_line, first_field, next_field};
pub use numbers::{number, numbers_stand, signed};
