// The standing entries of a book: zones, resources, loads and trades, entered and booked after their tests.
#![tactic(auto)]

mod limits;
mod register;
mod state;

pub use state::Standing;
