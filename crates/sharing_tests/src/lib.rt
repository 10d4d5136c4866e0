// Two kinds of party as examples, and the sharing tried on them.
#![tactic(auto)]

mod kinds;
mod parties;
#[cfg(test)]
mod tests;

pub use kinds::{Load, Recipient};
