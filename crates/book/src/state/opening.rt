// A book is made empty, and opened for one period.
ghost use Rattle.std.specs.Prelude.{◌≡◌, IfOk};
ghost use Rattle.rules.specs.Calls.{open_call};
ghost use Rattle.rules.specs.Replays.{empty};
ghost use Rattle.rules.specs.Tests.{year_test, peak_test};
ghost use Rattle.book.specs.View.{view, setup_ticket, opening};

use super::Book;
use crate::ticket::SetupTicket;
use rules::refusal::Refusal;
use rules::rows::Stage;
use standing::Standing;
use std::alloc::{AllocError, Global};

// These two are rules of their own, with their refusals; what they share is `Refusal::when`.
fn test_year(year: u64) -> Result<(), Refusal>
    ensures { result ≡ year_test year }
{
    Refusal::Year.when(!(2010..=2098).contains(&year))
}

fn test_peak(peak: u64) -> Result<(), Refusal>
    ensures { result ≡ peak_test peak }
{
    Refusal::Peak.when(!(1..=100000).contains(&peak))
}

impl Book {
    // The empty book, with memory for all that it can hold.
    pub fn new(heap: Global) -> Result<Book, AllocError>
        ensures { IfOk result (λ b. view b ≡ empty) }
    {
        let standing = Standing::new(heap)?;
        Ok(Book {
            year: 2010,
            peak: 1,
            month: 0,
            stage: Stage::SetUp,
            standing,
        })
    }

    // Opens the book for the period that begins in June of `year`. What stood in it is gone.
    #[tactic(auto, using(crate::proofs::Keeps::keeps_opening))]
    pub fn open(&mut self, year: u64, peak: u64) -> Result<SetupTicket, Refusal>
        ensures { (result, view self.new) ≡ opening setup_ticket (open_call (view self.old) year peak) }
    {
        test_year(year)?;
        test_peak(peak)?;
        self.year = year;
        self.peak = peak;
        self.month = 0;
        self.stage = Stage::SetUp;
        self.standing.clear();
        Ok(SetupTicket { month: 0 })
    }
}
