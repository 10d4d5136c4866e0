// The peak energy rent of a month from its hours, apart from any book.
#![tactic(auto)]

mod hour;
mod month;
mod peak;
mod refusal;

pub use hour::Hour;
pub use month::{hours_above_strike, month_rent};
pub use refusal::RentRefusal;
