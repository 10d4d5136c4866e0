// The whole sheet.
ghost use Rattle.std.specs.Prelude.{◌≡◌, min, length};
ghost use Rattle.rules.specs.declared.refusal.Refusal.TheVariants.{BufferShort};
ghost use Rattle.text.specs.Buffer.{Wrote, last_place};
ghost use Rattle.book.specs.View.{view};
ghost use Rattle.sheet.specs.Sheets.{sheet_text};

use crate::putting::{put_opening, put_section};
use book::Book;
use rules::refusal::Refusal;
use text::faults::Section;
use text::writing::{Text, Writer, text_len};

// The text of a book is its standing sheet.
#[derive(Clone, Copy)]
struct Sheet<'a> {
    book: &'a Book,
}

impl<'a> Text for Sheet<'a> {
    ghost text = { λ s. sheet_text (view s.book.now) };

    #[tactic(auto, using(text::proofs::Pastes::putting), unfolding(sheet::specs::Sheets::text_of))]
    fn put(&self, w: &mut Writer<'_>) {
        let standing = self.book.standing();
        put_opening(w, self.book.year(), self.book.peak());
        put_section(w, Section::Z, standing.zones());
        put_section(w, Section::R, standing.resources());
        put_section(w, Section::L, standing.loads());
        put_section(w, Section::T, standing.trades());
    }
}

// The length of the book's standing sheet.
pub fn sheet_len(book: &Book) -> usize
    ensures { result ≡ min (length (sheet_text (view book.now))) last_place }
{
    text_len(&Sheet { book })
}

// Writes the book's standing sheet at the front of the buffer and answers its length; later bytes stay as they were. A
// buffer that is too short is refused, and stays as it was.
pub fn write(book: &Book, out: &mut [u8]) -> Result<usize, Refusal>
    ensures sheet { Wrote BufferShort (sheet_text (view book.now)) out.old out.new result }
{
    text::writing::write(&Sheet { book }, out, Refusal::BufferShort)
}
