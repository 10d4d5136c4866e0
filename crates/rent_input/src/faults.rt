ghost use Rattle.std.specs.Prelude.{◌≡◌};
ghost use Rattle.rent_input.specs.declared.faults.Failure.TheVariants.{Unreadable, NoMemory};

use std::alloc::AllocFailed;

// What is wrong with a field, by its place in the line, counted from 1.
#[derive(Clone, Copy)]
pub enum Wrong {
    // the field is missing or empty
    Missing(usize),
    // the field is no number of at most eleven digits
    NotANumber(usize),
    // the line has a field too many
    Surplus(usize),
}

// What is wrong, and on which line, counted from 1.
#[derive(Clone, Copy)]
pub struct Fault {
    pub line: usize,
    pub wrong: Wrong,
}

// Why an input was not read.
#[derive(Clone, Copy)]
pub enum Failure {
    Unreadable(Fault),
    NoMemory,
}

impl From<Fault> for Failure {
    ghost from_gives = { λ fault r. r ≡ Unreadable fault };

    fn from(fault: Fault) -> Failure {
        Failure::Unreadable(fault)
    }
}

impl<T: Drop> From<AllocFailed<T>> for Failure {
    ghost from_gives = { λ _ r. r ≡ NoMemory };

    fn from(_refused: AllocFailed<T>) -> Failure {
        Failure::NoMemory
    }
}
