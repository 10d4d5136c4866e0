// The standing sheet of a book: reading it, and what holds of every sheet.
#![tactic(auto)]

mod laws;
mod reading;
mod section;

pub use laws::sheets_stand;
pub use reading::read;
