// The input and the report of the program `rent`: a line with the peak of a month, and one for each of its hours.
#![tactic(auto)]

mod faults;
mod line;
mod messages;
mod month;
mod report;

pub use faults::{Failure, Fault, Wrong};
pub use month::{Month, read_month};
pub use report::{Report, report_on};
