// Going over a sheet line by line, and over a line field by field.
ghost use Rattle.std.specs.Prelude.{◌≡◌, ◌+◌, ◌<◌, [], length, ◌==◌};
ghost use Rattle.text.specs.Fields.{FieldIs, Began, Next, spot_at, stand};

use crate::cuts::{ended_line, first_field, next_field};
use crate::faults::{LineDue, Section, Spot};
use crate::reader::{Field, Reader};

impl<'a> Reader<'a> {
    // A reader before the first line of a text, which is one of the section.
    pub fn new(text: &'a [u8], section: Section) -> Reader<'a>
        ensures row { result.row.now ≡ [] }
        ensures place { stand result ≡ record { line = 0; rest = text.now } }
        ensures spot { result.spot ≡ record { section = section; line = 0 } }
        ensures field { result.place ≡ 0 }
    {
        Reader {
            row: &[],
            rest: text,
            spot: Spot { section, line: 0 },
            place: 0,
        }
    }

    // Where the line stands that the reader is in.
    pub fn spot(&self) -> Spot
        ensures { result ≡ self.now.spot }
    {
        self.spot
    }

    // Where the next line stands.
    pub fn next_spot(&self, section: Section) -> Spot
        ensures { result ≡ spot_at section (stand self.now) }
    {
        Spot {
            section,
            line: self.spot.line + 1,
        }
    }

    pub fn at_end(&self) -> bool
        ensures { result ≡ (length self.now.rest.now == 0) }
    {
        self.rest.is_empty()
    }

    // The first field of the next line, which is one of the section and has its LF.
    pub fn line(&mut self, section: Section) -> Result<Field<'a>, LineDue>
        ensures { Began section self.old self.new result }
    {
        let spot = self.next_spot(section);
        let (row, below) = ended_line(self.rest).ok_or(LineDue { spot })?;
        let (bytes, left) = first_field(row);
        self.row = left;
        self.rest = below;
        self.spot = spot;
        self.place = 1;
        Ok(Field {
            bytes,
            spot,
            place: 1,
        })
    }

    // The next field of the line, which is empty where the line has none left.
    pub fn field(&mut self) -> Field<'a>
        requires { self.old.place < 99 }
        ensures { Next self.old self.new result }
    {
        let place = self.place + 1;
        let (bytes, left) = next_field(self.row);
        self.row = left;
        self.place = place;
        Field {
            bytes,
            spot: self.spot,
            place,
        }
    }

    // What is left of the line.
    pub fn tail(&self) -> Field<'a>
        requires { self.now.place < 99 }
        ensures { FieldIs result self.now.row.now self.now.spot (self.now.place + 1) }
    {
        Field {
            bytes: self.row,
            spot: self.spot,
            place: self.place + 1,
        }
    }
}
