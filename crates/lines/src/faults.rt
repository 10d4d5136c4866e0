// What is wrong with a sheet: the fault of a field or of the book becomes its line's, and that the sheet's.
ghost use Rattle.std.specs.Prelude.{◌≡◌};
ghost use Rattle.lines.specs.declared.faults.LineFault.TheVariants.{Due, Field, Book};
ghost use Rattle.lines.specs.Faults.{sheet_fault};

use rules::refusal::Refusal;
use text::faults::{FieldFault, LineDue, Section, Spot};

// The book refuses the entry of a line.
#[derive(Clone, Copy)]
pub struct BookFault {
    pub spot: Spot,
    pub refusal: Refusal,
}

// What is wrong with a line.
#[derive(Clone, Copy)]
pub enum LineFault {
    // 33: the text ends where a line or its LF is due, or the line begins with another letter than the one due
    Due(Spot),
    // 34: text is left over after the last line
    LeftOver(Spot),
    // 32
    Field(FieldFault),
    // the refusal's own number
    Book(BookFault),
}

// What found the fault.
#[derive(Clone, Copy)]
pub enum Layer {
    Field,
    Line,
    Book,
}

// What is wrong with a sheet, by number, line, field, section and layer, with the line's fault whole.
#[derive(Clone, Copy)]
pub struct SheetFault {
    pub number: u32,
    pub line: usize,
    pub field: usize,
    pub section: Section,
    pub layer: Layer,
    pub cause: LineFault,
}

// Each `From` says which fault it gives, since the contracts of what ends by `?` name it: a derived one says nothing.
impl From<LineDue> for LineFault {
    ghost from_gives = { λ f r. r ≡ Due f.spot };

    fn from(f: LineDue) -> LineFault {
        LineFault::Due(f.spot)
    }
}

impl From<FieldFault> for LineFault {
    ghost from_gives = { λ f r. r ≡ Field f };

    fn from(f: FieldFault) -> LineFault {
        LineFault::Field(f)
    }
}

impl From<BookFault> for LineFault {
    ghost from_gives = { λ f r. r ≡ Book f };

    fn from(f: BookFault) -> LineFault {
        LineFault::Book(f)
    }
}

impl From<LineFault> for SheetFault {
    ghost from_gives = { λ f r. r ≡ sheet_fault f };

    fn from(f: LineFault) -> SheetFault {
        let (number, spot, field, layer) = match f {
            LineFault::Due(spot) => (33, spot, 0, Layer::Line),
            LineFault::LeftOver(spot) => (34, spot, 0, Layer::Line),
            LineFault::Field(x) => (32, x.spot, x.place, Layer::Field),
            LineFault::Book(x) => (x.refusal.number(), x.spot, 0, Layer::Book),
        };
        SheetFault {
            number,
            line: spot.line,
            field,
            section: spot.section,
            layer,
            cause: f,
        }
    }
}
