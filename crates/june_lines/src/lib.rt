// The lines that the program june prints, each ended by LF, written into the caller's buffer.
#![tactic(auto)]

mod printing;

pub use printing::{refused_line, resource_line};
