// The values of each kind of line, field after field.
ghost use Rattle.std.specs.Prelude.{◌≡◌, ℕ, List};
ghost use Rattle.text.specs.declared.faults.Spot.{Spot};
ghost use Rattle.lines.specs.Kinds.{zone_row, resource_row, load_row, bilateral_row, auction_row, opening_row, count_row};
ghost use Rattle.lines.specs.Lines.{OpeningParts, CountParts, ZoneParts, ResourceParts, LoadParts, BilateralParts, AuctionParts};

use lines::line::{
    AuctionLine, BilateralLine, CountLine, LoadLine, OpeningLine, ResourceLine, ZoneLine,
};
use rules::entry::{Entry, Offer};
use rules::rows::{Auction, Bilateral, Load, Trade, Zone};
use text::faults::FieldFault;

// The entry of a zone's line.
pub fn zone_row(line: ZoneLine<'_>) -> Result<Entry, FieldFault>
    requires { line.rents.place ≡ 2 }
    ensures { (s : List ℕ) (at : Spot) → ZoneParts line.entry s at → result ≡ zone_row at s }
{
    let price = line.price.number()?;
    let rents = line.rents.twelve()?;
    Ok(Entry::Zone(Zone { price, rents }))
}

// The entry of a resource's line.
pub fn resource_row(line: ResourceLine<'_>) -> Result<Entry, FieldFault>
    ensures { (s : List ℕ) (at : Spot) → ResourceParts line.entry s at → result ≡ resource_row at s }
{
    let zone = line.zone.number()?;
    let letter = line.class.letter()?;
    let cleared = line.cleared.number()?;
    let supplied = line.supplied.number()?;
    line.tail.nothing()?;
    Ok(Entry::Resource(Offer {
        zone,
        letter,
        cleared,
        supplied,
    }))
}

// The entry of a load's line.
pub fn load_row(line: LoadLine<'_>) -> Result<Entry, FieldFault>
    ensures { (s : List ℕ) (at : Spot) → LoadParts line.entry s at → result ≡ load_row at s }
{
    let zone = line.zone.number()?;
    let obligation = line.obligation.signed()?;
    line.tail.nothing()?;
    Ok(Entry::Load(Load { zone, obligation }))
}

// The entry of a bilateral's line.
pub fn bilateral_row(line: BilateralLine<'_>) -> Result<Entry, FieldFault>
    ensures { (s : List ℕ) (at : Spot) → BilateralParts line.entry s at → result ≡ bilateral_row at s }
{
    line.letter.fixed(b'B')?;
    let shedder = line.shedder.number()?;
    let acquirer = line.acquirer.number()?;
    let first = line.first.number()?;
    let last = line.last.number()?;
    let quantity = line.quantity.number()?;
    let price = line.price.number()?;
    line.tail.nothing()?;
    Ok(Entry::Trade(Trade::Bilateral(Bilateral {
        shedder,
        acquirer,
        first,
        last,
        quantity,
        price,
    })))
}

// The entry of an auction's line.
pub fn auction_row(line: AuctionLine<'_>) -> Result<Entry, FieldFault>
    ensures { (s : List ℕ) (at : Spot) → AuctionParts line.entry s at → result ≡ auction_row at s }
{
    line.letter.fixed(b'A')?;
    let resource = line.resource.number()?;
    let first = line.first.number()?;
    let last = line.last.number()?;
    let quantity = line.quantity.signed()?;
    let price = line.price.number()?;
    line.tail.nothing()?;
    Ok(Entry::Trade(Trade::Auction(Auction {
        resource,
        first,
        last,
        quantity,
        price,
    })))
}

// The year and the peak of a line that opens the book.
pub fn opening_row(line: OpeningLine<'_>) -> Result<(u64, u64), FieldFault>
    ensures { (s : List ℕ) (at : Spot) → OpeningParts line.entry s at → result ≡ opening_row at s }
{
    line.letter.fixed(b'Y')?;
    let year = line.year.number()?;
    let peak = line.peak.number()?;
    line.tail.nothing()?;
    Ok((year, peak))
}

// The count of a line whose letter is `c`.
pub fn count_row(c: u8, line: CountLine<'_>) -> Result<u64, FieldFault>
    ensures { (s : List ℕ) (at : Spot) → CountParts line.entry s at → result ≡ count_row c at s }
{
    line.letter.fixed(c)?;
    let count = line.count.number()?;
    line.tail.nothing()?;
    Ok(count)
}
