// The capacity book: what it holds, its tickets, and the calls that change it.
#![tactic(auto)]

mod state;
mod ticket;

pub use state::Book;
pub use ticket::{MonthTicket, SetupTicket};
