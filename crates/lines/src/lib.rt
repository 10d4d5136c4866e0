// The lines of a sheet: their kinds, what each writes, and what is wrong with one.
#![tactic(auto)]

pub mod faults;
pub mod line;
