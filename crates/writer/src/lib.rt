// Writing the standing sheet of a book into the caller's buffer.
#![tactic(auto)]

mod entries;
mod putting;
mod writing;

pub use writing::{sheet_len, write};
