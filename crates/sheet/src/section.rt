// Reading the lines of a section into a book.
ghost use Rattle.std.specs.Prelude.{◌≡◌};
ghost use Rattle.rules.specs.Replays.{enter};
ghost use Rattle.book.specs.View.{view};
ghost use Rattle.lines.specs.Faults.{at_spot};
ghost use Rattle.lines.specs.Lines.{settled};
ghost use Rattle.sheet.specs.Reading.{step, steps, read_section};
ghost use Rattle.sheet.specs.Filling.{progress, Same};

use book::{Book, SetupTicket};
use lines::faults::{BookFault, LineFault};
use rules::entry::Entry;
use rules::refusal::Refusal;
use rules::rows::Trade;
use text::faults::{Section, Spot};
use text::reader::Reader;
use values::{next_count, next_entry};

// A book, what its sheet is read by, and the ticket of its set-up.
#[derive(Drop)]
pub struct Filling<'b, 't> {
    pub book: &'b mut Book,
    pub reader: Reader<'t>,
    pub ticket: SetupTicket,
}

// The book's answer to the line at a spot.
pub fn placed<T>(spot: Spot, r: Result<T, Refusal>) -> Result<T, BookFault>
    ensures { result ≡ at_spot spot r }
{
    r.map_err(|refusal| BookFault { spot, refusal })
}

// Enters an entry into the book.
fn enter_into(book: &mut Book, ticket: &SetupTicket, entry: Entry) -> Result<u64, Refusal>
    ensures { settled result (view book.new) ≡ enter ticket.now.month entry (view book.old) }
{
    match entry {
        Entry::Zone(zone) => book.zone(ticket, zone),
        Entry::Resource(offer) => book.resource(ticket, offer),
        Entry::Load(load) => book.load(ticket, load),
        Entry::Trade(Trade::Bilateral(trade)) => book.bilateral(trade),
        Entry::Trade(Trade::Auction(trade)) => book.auction(trade),
    }
}

impl Filling<'_, '_> {
    // Reads the next line of the section into the book.
    fn entry(&mut self, section: Section) -> Result<(), LineFault>
        ensures same { Same self.old self.new }
        ensures read { settled result (progress self.new) ≡ step self.old.ticket section (progress self.old) }
    {
        let Filling {
            book,
            reader,
            ticket,
        } = self;
        let entry = next_entry(section, reader)?;
        placed(reader.spot(), enter_into(book, ticket, entry))?;
        Ok(())
    }

    // Reads the next `n` lines of the section into the book.
    #[tactic(auto, using(crate::proofs::Ends::steps_none, crate::proofs::Ends::steps_next, crate::proofs::Ends::steps_fault))]
    fn entries(&mut self, section: Section, n: u64) -> Result<(), LineFault>
        ensures same { Same self.old self.new }
        ensures read { settled result (progress self.new) ≡ steps self.old.ticket section n (progress self.old) }
    {
        for _ in 0..n {
            self.entry(section)?;
        }
        Ok(())
    }

    // Reads a section with its count line.
    pub fn section(&mut self, section: Section) -> Result<(), LineFault>
        ensures same { Same self.old self.new }
        ensures read { settled result (progress self.new) ≡ read_section self.old.ticket section (progress self.old) }
    {
        let n = next_count(section, &mut self.reader)?;
        self.entries(section, n)
    }
}
