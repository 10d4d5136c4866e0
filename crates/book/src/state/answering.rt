// Questions about positions, and about the month in hand.
ghost use Rattle.std.specs.Prelude.{◌≡◌, List, pos, IfOk};
ghost use Rattle.std.specs.Result.{result_map_both};
ghost use Rattle.rules.specs.Questions.{position_question, terms, terms_question};
ghost use Rattle.rules.specs.Runs.{Call, after_all};
ghost use Rattle.rules.specs.Tests.{month_test};
ghost use Rattle.book.specs.View.{view};

use super::Book;
use crate::ticket::MonthTicket;
use payments::{Account, RentsBefore};
use rules::answers::Terms;
use rules::refusal::Refusal;
use rules::rows::Stage;

// The number is that of a month: a rule of its own over `Refusal::when`.
fn test_month(month: u64) -> Result<(), Refusal>
    ensures { result ≡ month_test month }
{
    Refusal::Months.when(!(1..=12).contains(&month))
}

impl Book {
    // The position of a resource in a month: what it cleared and acquired, less what it shed.
    pub fn position(&self, resource: u64, month: u64) -> Result<u64, Refusal>
        ensures { result_map_both pos (λ e. e) result ≡ position_question (view self.now) resource month }
    {
        let found = self.standing.resource(resource)?;
        test_month(month)?;
        Ok(found.row[month as usize - 1])
    }

    // What the resource is paid and deducted for the month in hand. No later call moves it.
    pub fn terms(&self, ticket: &MonthTicket, resource: u64) -> Result<Terms, Refusal>
        ensures value { result ≡ terms_question (view self.now) ticket.now.month resource }
        ensures stays { IfOk result (λ t. (calls : List Call) → terms (after_all (view self.now) calls) resource (view self.now).month ≡ t) }
    {
        self.test_stage(ticket.month, Stage::Running)?;
        let found = self.standing.resource(resource)?;
        let account = Account {
            standing: &self.standing,
            number: resource,
            resource: &found,
        };
        let rents = RentsBefore {
            entered: &[],
            month: self.month,
        };
        let payment = account.payment(self.month);
        let deduction = account.deduction(&rents);
        Ok(Terms { payment, deduction })
    }
}
