// Reading a sheet into a book, line after line, up to the first fault.
ghost use Rattle.std.specs.Prelude.{◌≡◌, MatchResult};
ghost use Rattle.rules.specs.Ledger.{Ledger};
ghost use Rattle.rules.specs.Replays.{empty};
ghost use Rattle.book.specs.View.{view};
ghost use Rattle.text.specs.Fields.{stand};
ghost use Rattle.lines.specs.Lines.{ending, settled};
ghost use Rattle.sheet.specs.Reading.{read_open, sections, finish as finished, read_all, of_line, read_sheet};
ghost use Rattle.sheet.specs.Filling.{progress, Same};
ghost use Rattle.sheet.specs.Sheets.{SheetOf};

use crate::section::{Filling, placed};
use book::{Book, SetupTicket};
use lines::faults::{LineFault, SheetFault};
use text::faults::Section;
use text::reader::Reader;
use values::next_opening;

// Opens the book by the first line.
#[tactic(auto, using(crate::proofs::Ends::opens_same), unfolding(crate::specs::Reading::read_open))]
fn open_book(reader: &mut Reader<'_>, book: &mut Book) -> Result<SetupTicket, LineFault>
    ensures { ending result (stand reader.new, view book.new) ≡ read_open (stand reader.old, empty) }
{
    let (year, peak) = next_opening(reader)?;
    Ok(placed(reader.spot(), book.open(year, peak))?)
}

impl Filling<'_, '_> {
    // No text is left over after the last line. With no value to answer an `if` is shorter than
    // `then_some(()).ok_or(..)`.
    fn finish(&self) -> Result<(), LineFault>
        ensures { (l : Ledger) → settled result l ≡ finished (stand self.now.reader, l) }
    {
        if self.reader.at_end() {
            Ok(())
        } else {
            Err(LineFault::LeftOver(self.reader.next_spot(Section::T)))
        }
    }

    // Reads the four sections after the first line.
    fn sections(&mut self) -> Result<(), LineFault>
        ensures same { Same self.old self.new }
        ensures read { settled result (view self.new.book.now) ≡ sections self.old.ticket (progress self.old) }
    {
        self.section(Section::Z)?;
        self.section(Section::R)?;
        self.section(Section::L)?;
        self.section(Section::T)?;
        self.finish()
    }
}

// Reads all lines. A line's fault becomes the sheet's.
fn read_lines(book: &mut Book, text: &[u8]) -> Result<SetupTicket, SheetFault>
    ensures { ending result (view book.new) ≡ of_line (read_all (record { line = 0; rest = text.now }, empty)) }
{
    let mut reader = Reader::new(text, Section::Y);
    let ticket = open_book(&mut reader, book)?;
    let mut filling = Filling {
        book,
        reader,
        ticket,
    };
    filling.sections()?;
    Ok(filling.ticket)
}

// Leaves the empty book.
fn clear(book: &mut Book)
    ensures { view book.new ≡ empty }
{
    let _ = book.open(2010, 1);
}

// Reads a sheet into the book, whatever stood there. A text is accepted just where it is the sheet of some ledger, which
// the book then holds. A refused sheet leaves the empty book.
#[tactic(auto, using(crate::proofs::Accepted::sheet_back, crate::proofs::Accepted::no_sheet))]
pub fn read(book: &mut Book, text: &[u8]) -> Result<SetupTicket, SheetFault>
    ensures exact { (result, view book.new) ≡ read_sheet text.now }
    ensures accepted { MatchResult result (λ _. SheetOf (view book.new) text.now) (λ _. (l : Ledger) → SheetOf l text.now → ⊥) }
{
    let read = read_lines(book, text);
    if read.is_err() {
        clear(book);
    }
    read
}
