// A line is one of seven kinds, and its fields are parts of the sheet.
ghost use Rattle.std.specs.Prelude.{◌≡◌};
ghost use Rattle.lines.specs.Lines.{Led, Cuts, Trade, opening_of, count_of, entry_of};
ghost use Rattle.lines.specs.Kinds.{section_letter, read_opening, read_count, read_entry, bilateral_row, auction_row};

use crate::faults::LineFault;
use text::faults::Section;
use text::reader::{Field, Reader};

// The line that opens the book. In each kind `tail` is what is left of the line after its last field.
#[derive(Clone, Copy)]
pub struct OpeningLine<'a> {
    pub letter: Field<'a>,
    pub year: Field<'a>,
    pub peak: Field<'a>,
    pub tail: Field<'a>,
}

// The line that counts those of a section.
#[derive(Clone, Copy)]
pub struct CountLine<'a> {
    pub letter: Field<'a>,
    pub count: Field<'a>,
    pub tail: Field<'a>,
}

// A zone's line; its twelve rents are one part, up to the line's end.
#[derive(Clone, Copy)]
pub struct ZoneLine<'a> {
    pub price: Field<'a>,
    pub rents: Field<'a>,
}

// A resource's line.
#[derive(Clone, Copy)]
pub struct ResourceLine<'a> {
    pub zone: Field<'a>,
    pub class: Field<'a>,
    pub cleared: Field<'a>,
    pub supplied: Field<'a>,
    pub tail: Field<'a>,
}

// A load's line.
#[derive(Clone, Copy)]
pub struct LoadLine<'a> {
    pub zone: Field<'a>,
    pub obligation: Field<'a>,
    pub tail: Field<'a>,
}

// A bilateral's line.
#[derive(Clone, Copy)]
pub struct BilateralLine<'a> {
    pub letter: Field<'a>,
    pub shedder: Field<'a>,
    pub acquirer: Field<'a>,
    pub first: Field<'a>,
    pub last: Field<'a>,
    pub quantity: Field<'a>,
    pub price: Field<'a>,
    pub tail: Field<'a>,
}

// An auction's line.
#[derive(Clone, Copy)]
pub struct AuctionLine<'a> {
    pub letter: Field<'a>,
    pub resource: Field<'a>,
    pub first: Field<'a>,
    pub last: Field<'a>,
    pub quantity: Field<'a>,
    pub price: Field<'a>,
    pub tail: Field<'a>,
}

// The parts of a line, by its kind.
#[derive(Clone, Copy)]
pub enum Line<'a> {
    Opening(OpeningLine<'a>),
    Count(CountLine<'a>),
    Zone(ZoneLine<'a>),
    Resource(ResourceLine<'a>),
    Load(LoadLine<'a>),
    Bilateral(BilateralLine<'a>),
    Auction(AuctionLine<'a>),
}

#[tactic(auto, unfolding(crate::specs::Kinds::read_entry, crate::specs::Lines::line_at))]
impl<'a> Line<'a> {
    // The next line, which is a zone's.
    fn next_zone(reader: &mut Reader<'a>) -> Result<Line<'a>, LineFault>
        ensures { Cuts Section.Z (read_entry Section.Z) entry_of reader.old reader.new result }
    {
        let price = reader.line(Section::Z)?;
        let rents = reader.tail();
        Ok(Line::Zone(ZoneLine { price, rents }))
    }

    // The next line, which is a resource's.
    fn next_resource(reader: &mut Reader<'a>) -> Result<Line<'a>, LineFault>
        ensures { Cuts Section.R (read_entry Section.R) entry_of reader.old reader.new result }
    {
        let zone = reader.line(Section::R)?;
        let class = reader.field();
        let cleared = reader.field();
        let supplied = reader.field();
        let tail = reader.tail();
        Ok(Line::Resource(ResourceLine {
            zone,
            class,
            cleared,
            supplied,
            tail,
        }))
    }

    // The next line, which is a load's.
    fn next_load(reader: &mut Reader<'a>) -> Result<Line<'a>, LineFault>
        ensures { Cuts Section.L (read_entry Section.L) entry_of reader.old reader.new result }
    {
        let zone = reader.line(Section::L)?;
        let obligation = reader.field();
        let tail = reader.tail();
        Ok(Line::Load(LoadLine {
            zone,
            obligation,
            tail,
        }))
    }

    // The fields of a bilateral after its letter.
    fn bilateral(letter: Field<'a>, reader: &mut Reader<'a>) -> Line<'a>
        requires { reader.old.place ≡ 1 }
        ensures { Trade bilateral_row letter.entry reader.old reader.new result }
    {
        let shedder = reader.field();
        let acquirer = reader.field();
        let first = reader.field();
        let last = reader.field();
        let quantity = reader.field();
        let price = reader.field();
        let tail = reader.tail();
        Line::Bilateral(BilateralLine {
            letter,
            shedder,
            acquirer,
            first,
            last,
            quantity,
            price,
            tail,
        })
    }

    // The fields of an auction after its letter.
    fn auction(letter: Field<'a>, reader: &mut Reader<'a>) -> Line<'a>
        requires { reader.old.place ≡ 1 }
        ensures { Trade auction_row letter.entry reader.old reader.new result }
    {
        let resource = reader.field();
        let first = reader.field();
        let last = reader.field();
        let quantity = reader.field();
        let price = reader.field();
        let tail = reader.tail();
        Line::Auction(AuctionLine {
            letter,
            resource,
            first,
            last,
            quantity,
            price,
            tail,
        })
    }

    // The next line, which is a trade's: an auction or a bilateral, by its letter.
    fn next_trade(reader: &mut Reader<'a>) -> Result<Line<'a>, LineFault>
        ensures { Cuts Section.T (read_entry Section.T) entry_of reader.old reader.new result }
    {
        let letter = reader.line(Section::T)?;
        match letter.bytes {
            b"A" => Ok(Line::auction(letter, reader)),
            b"B" => Ok(Line::bilateral(letter, reader)),
            _ => Err(LineFault::Due(letter.spot)),
        }
    }

    // The next line, which opens the book.
    pub fn next_opening(reader: &mut Reader<'a>) -> Result<Line<'a>, LineFault>
        ensures { Cuts Section.Y read_opening opening_of reader.old reader.new result }
    {
        let letter = letter_of(Section::Y, reader)?;
        let year = reader.field();
        let peak = reader.field();
        let tail = reader.tail();
        Ok(Line::Opening(OpeningLine {
            letter,
            year,
            peak,
            tail,
        }))
    }

    // The next line, which counts those of a section.
    pub fn next_count(section: Section, reader: &mut Reader<'a>) -> Result<Line<'a>, LineFault>
        ensures { Cuts section (read_count section) (count_of (section_letter section)) reader.old reader.new result }
    {
        let letter = letter_of(section, reader)?;
        let count = reader.field();
        let tail = reader.tail();
        Ok(Line::Count(CountLine {
            letter,
            count,
            tail,
        }))
    }

    // The next line, which is an entry of the section; section Y has none. The section is data that a fault names, so no
    // function is passed in its place.
    pub fn next(section: Section, reader: &mut Reader<'a>) -> Result<Line<'a>, LineFault>
        ensures { Cuts section (read_entry section) entry_of reader.old reader.new result }
    {
        match section {
            Section::Y => Err(LineFault::Due(reader.next_spot(section))),
            Section::Z => Line::next_zone(reader),
            Section::R => Line::next_resource(reader),
            Section::L => Line::next_load(reader),
            Section::T => Line::next_trade(reader),
        }
    }
}

// The first field of the next line, which is the letter of the section.
fn letter_of<'a>(section: Section, reader: &mut Reader<'a>) -> Result<Field<'a>, LineFault>
    ensures { Led section reader.old reader.new result }
{
    let letter = reader.line(section)?;
    if !letter.is_letter(section_letter(section)) {
        return Err(LineFault::Due(letter.spot));
    }
    Ok(letter)
}

// The letter of a section. A function: its callers use an equation, and `From` gives a relation.
pub fn section_letter(section: Section) -> u8
    ensures { result ≡ section_letter section }
{
    section as u8
}
