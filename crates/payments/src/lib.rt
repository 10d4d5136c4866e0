// What a resource is paid for a month, and what is deducted for rents.
#![tactic(auto)]

mod account;
mod rents;
mod trades;

pub use account::Account;
pub use rents::RentsBefore;
