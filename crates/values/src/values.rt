// The values of a line, by its kind.
ghost use Rattle.std.specs.Prelude.{◌≡◌, ℕ, List};
ghost use Rattle.text.specs.declared.faults.Spot.{Spot};
ghost use Rattle.lines.specs.Lines.{RentsSecond, Parts, opening_of, count_of, entry_of};

use crate::rows::{
    auction_row, bilateral_row, count_row, load_row, opening_row, resource_row, zone_row,
};
use lines::line::Line;
use rules::entry::Entry;
use text::faults::FieldFault;

// The fault of a line of another kind than the one due: its first field's.
fn other(line: &Line<'_>) -> FieldFault
    ensures { (s : List ℕ) (at : Spot) → Parts line.now s at → result ≡ record { spot = at; place = 1 } }
{
    let first = match line {
        Line::Opening(opening) => opening.letter,
        Line::Count(count) => count.letter,
        Line::Zone(zone) => zone.price,
        Line::Resource(resource) => resource.zone,
        Line::Load(load) => load.zone,
        Line::Bilateral(bilateral) => bilateral.letter,
        Line::Auction(auction) => auction.letter,
    };
    first.fault()
}

// The entry that the line writes.
pub fn entry(line: &Line<'_>) -> Result<Entry, FieldFault>
    requires { RentsSecond line.now }
    ensures { (s : List ℕ) (at : Spot) → Parts line.now s at → result ≡ entry_of line.now at s }
{
    match *line {
        Line::Zone(zone) => zone_row(zone),
        Line::Resource(resource) => resource_row(resource),
        Line::Load(load) => load_row(load),
        Line::Bilateral(bilateral) => bilateral_row(bilateral),
        Line::Auction(auction) => auction_row(auction),
        _ => Err(other(line)),
    }
}

// The year and the peak of the first line.
pub fn opening(line: &Line<'_>) -> Result<(u64, u64), FieldFault>
    ensures { (s : List ℕ) (at : Spot) → Parts line.now s at → result ≡ opening_of line.now at s }
{
    let Line::Opening(opening) = *line else {
        return Err(other(line));
    };
    opening_row(opening)
}

// How many lines follow the line, whose letter is `c`.
pub fn count(line: &Line<'_>, c: u8) -> Result<u64, FieldFault>
    ensures { (s : List ℕ) (at : Spot) → Parts line.now s at → result ≡ count_of c line.now at s }
{
    let Line::Count(count) = *line else {
        return Err(other(line));
    };
    count_row(c, count)
}
