// The sharing of an amount of cents over parties by their weights, each share rounded down.
#![tactic(auto)]

mod floor;
mod parties;

pub use floor::floor_div;
pub use parties::{Party, share};
