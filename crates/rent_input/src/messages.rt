// What the program says of an input.
ghost use Rattle.std.specs.Prelude.{Some};
ghost use Rattle.rent_input.specs.Messages.{wrong_text, fault_text, failure_text, report_text};

use crate::faults::{Failure, Fault, Wrong};
use crate::report::Report;
use std::fmt;

impl fmt::Display for Wrong {
    ghost output = { λ wrong. Some (wrong_text wrong) };

    fn fmt<W: fmt::Write>(&self, f: &mut fmt::Formatter<W>) -> fmt::Result {
        match self {
            Wrong::Missing(place) => write!(f, "field {place} is missing"),
            Wrong::NotANumber(place) => {
                write!(f, "field {place} is not a number of at most eleven digits")
            }
            Wrong::Surplus(place) => write!(f, "field {place} is one too many"),
        }
    }
}

impl fmt::Display for Fault {
    ghost output = { λ fault. Some (fault_text fault) };

    fn fmt<W: fmt::Write>(&self, f: &mut fmt::Formatter<W>) -> fmt::Result {
        let line = self.line;
        let wrong = self.wrong;
        write!(f, "line {line}: {wrong}")
    }
}

impl fmt::Display for Failure {
    ghost output = { λ failure. Some (failure_text failure) };

    fn fmt<W: fmt::Write>(&self, f: &mut fmt::Formatter<W>) -> fmt::Result {
        match self {
            Failure::Unreadable(fault) => write!(f, "unreadable: {fault}"),
            Failure::NoMemory => write!(f, "out of memory"),
        }
    }
}

impl fmt::Display for Report {
    ghost output = { λ report. Some (report_text report) };

    fn fmt<W: fmt::Write>(&self, f: &mut fmt::Formatter<W>) -> fmt::Result {
        let hours = self.hours;
        let above = self.above;
        let rent = self.rent;
        write!(f, "hours {hours}\nabove {above}\nrent {rent}")
    }
}
