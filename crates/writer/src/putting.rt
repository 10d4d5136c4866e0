// The lines of a sheet, put into a buffer.
#![tactic(auto, using(text::proofs::Pastes::putting))]

ghost use Rattle.std.specs.Prelude.{◌≡◌, map};
ghost use Rattle.text.specs.Buffer.{with_text};
ghost use Rattle.lines.specs.Kinds.{entry_text, opening, bilateral, auction, of_bilateral, of_auction};
ghost use Rattle.sheet.specs.Sheets.{line, lines, section_text};

use crate::entries::Stands;
use lines::line::section_letter;
use rules::entry::Entry;
use rules::rows::{Auction, Bilateral, Trade};
use text::faults::Section;
use text::writing::Writer;

// The line that opens the book.
pub fn put_opening(w: &mut Writer<'_>, year: u64, peak: u64)
    ensures { w.new ≡ with_text (line (opening.text (tt, (year, peak)))) w.old }
{
    w.byte(b'Y');
    w.later(year);
    w.later(peak);
    w.end();
}

fn put_bilateral(w: &mut Writer<'_>, trade: Bilateral)
    ensures { w.new ≡ with_text (bilateral.text (of_bilateral trade)) w.old }
{
    w.byte(b'B');
    w.numbers(&[
        trade.shedder,
        trade.acquirer,
        trade.first,
        trade.last,
        trade.quantity,
        trade.price,
    ]);
}

fn put_auction(w: &mut Writer<'_>, trade: Auction)
    ensures { w.new ≡ with_text (auction.text (of_auction trade)) w.old }
{
    w.byte(b'A');
    w.numbers(&[trade.resource, trade.first, trade.last]);
    w.later(trade.quantity);
    w.later(trade.price);
}

// An entry, without its line's end.
fn put_entry(w: &mut Writer<'_>, entry: Entry)
    ensures { w.new ≡ with_text (entry_text entry) w.old }
{
    match entry {
        Entry::Zone(zone) => {
            w.number(zone.price);
            w.numbers(&zone.rents);
        }
        Entry::Resource(offer) => {
            w.number(offer.zone);
            w.byte(b' ');
            w.byte(offer.letter);
            w.numbers(&[offer.cleared, offer.supplied]);
        }
        Entry::Load(load) => {
            w.number(load.zone);
            w.later(load.obligation);
        }
        Entry::Trade(Trade::Bilateral(trade)) => put_bilateral(w, trade),
        Entry::Trade(Trade::Auction(trade)) => put_auction(w, trade),
    }
}

// The lines of a section's entries.
fn put_lines<E: Stands>(w: &mut Writer<'_>, rows: &[E])
    ensures { w.new ≡ with_text (lines (map E.stands rows.now)) w.old }
{
    for row in rows {
        put_entry(w, row.as_entry());
        w.end();
    }
}

// A section, after the line with its letter and count.
#[tactic(auto, using(text::proofs::Pastes::putting), unfolding(sheet::specs::Sheets::section_text))]
pub fn put_section<E: Stands>(w: &mut Writer<'_>, section: Section, rows: &[E])
    ensures { w.new ≡ with_text (section_text section (map E.stands rows.now)) w.old }
{
    w.byte(section_letter(section));
    w.later(rows.len());
    w.end();
    put_lines(w, rows);
}
