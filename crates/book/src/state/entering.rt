// What is entered while the book is set up. A call tests its ticket and hands on to the standing entries, by its own
// definition.
ghost use Rattle.std.specs.Prelude.{◌≡◌};
ghost use Rattle.rules.specs.Calls.{zone_call, resource_call, load_call};
ghost use Rattle.rules.specs.Tests.{ticket_test};
ghost use Rattle.book.specs.View.{view};

use super::Book;
use crate::ticket::SetupTicket;
use rules::entry::Offer;
use rules::refusal::Refusal;
use rules::rows::{Load, Stage, Zone};

impl Book {
    // A ticket of that month and state is the book's.
    pub(super) fn test_stage(&self, month: u64, stage: Stage) -> Result<(), Refusal>
        ensures { result ≡ ticket_test (view self.now) stage month }
    {
        Refusal::Ticket.when(self.stage != stage || self.month != month)
    }

    // Enters a zone, and answers its number.
    pub fn zone(&mut self, ticket: &SetupTicket, zone: Zone) -> Result<u64, Refusal>
        ensures { (result, view self.new) ≡ zone_call (view self.old) ticket.now.month zone.price zone.rents }
    {
        self.test_stage(ticket.month, Stage::SetUp)?;
        self.standing.enter_zone(zone)
    }

    // Enters a resource by the letter of its class, and answers its number.
    pub fn resource(&mut self, ticket: &SetupTicket, offer: Offer) -> Result<u64, Refusal>
        ensures { (result, view self.new) ≡ resource_call (view self.old) ticket.now.month offer.zone offer.letter offer.cleared offer.supplied }
    {
        self.test_stage(ticket.month, Stage::SetUp)?;
        self.standing.enter_resource(offer)
    }

    // Enters a load, and answers its number.
    pub fn load(&mut self, ticket: &SetupTicket, load: Load) -> Result<u64, Refusal>
        ensures { (result, view self.new) ≡ load_call (view self.old) ticket.now.month load.zone load.obligation }
    {
        self.test_stage(ticket.month, Stage::SetUp)?;
        self.standing.enter_load(load)
    }
}
