// What lines say: the values of their fields, or the fault of the leftmost field that is wrong.
#![tactic(auto)]

mod next;
mod rows;
mod values;

pub use next::{next_count, next_entry, next_opening};
