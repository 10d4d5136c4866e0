// The step from set-up to June.
ghost use Rattle.std.specs.Prelude.{◌≡◌};
ghost use Rattle.rules.specs.Calls.{begin_call, spending};
ghost use Rattle.book.specs.View.{view, month_ticket};

use super::Book;
use crate::ticket::{MonthTicket, SetupTicket};
use rules::rows::Stage;
use rules::ticket::Returned;

// The first month runs. A function of its own, so that another state or month is refused at its contract.
fn june() -> (Stage, u64)
    ensures { result ≡ (Stage.Running, 1) }
{
    (Stage::Running, 1)
}

impl Book {
    // Begins June. A refusal hands the ticket back.
    pub fn begin(&mut self, ticket: SetupTicket) -> Result<MonthTicket, Returned<SetupTicket>>
        ensures { (result, view self.new) ≡ spending ticket month_ticket (begin_call (view self.old) ticket.month) }
    {
        self.test_stage(ticket.month, Stage::SetUp)
            .map_err(|refusal| Returned { refusal, ticket })?;
        let (stage, month) = june();
        self.stage = stage;
        self.month = month;
        Ok(MonthTicket { month: 1 })
    }
}
