// A part of a line that holds several fields, as a zone's twelve rents.
ghost use Rattle.std.specs.Prelude.{◌≡◌, ◌+◌, ◌<◌};
ghost use Rattle.text.specs.Cuts.{next, past};
ghost use Rattle.text.specs.Fields.{FieldIs};
ghost use Rattle.text.specs.Formats.{numbers_of};

use crate::cuts::next_field;
use crate::faults::FieldFault;
use crate::reader::Field;

impl<'a> Field<'a> {
    // The first field of a part that begins with its space, and the part after it. That the place is small is asked for, as of
    // a reader, and for its reason.
    fn split(&self) -> (Field<'a>, Field<'a>)
        requires { self.now.place < 99 }
        ensures first { FieldIs result.0 (next self.now.bytes.now) self.now.spot self.now.place }
        ensures left { FieldIs result.1 (past self.now.bytes.now) self.now.spot (self.now.place + 1) }
    {
        let spot = self.spot;
        let place = self.place;
        let (bytes, left) = next_field(self.bytes);
        let first = Field { bytes, spot, place };
        let rest = Field {
            bytes: left,
            spot,
            place: place + 1,
        };
        (first, rest)
    }

    // The twelve numbers of a part.
    #[tactic(auto, using(crate::proofs::Repeats::number_read, crate::proofs::Repeats::number_faulty, crate::proofs::Repeats::numbers_end))]
    pub fn twelve(&self) -> Result<[u64; 12], FieldFault>
        requires { self.now.place < 80 }
        ensures { result ≡ numbers_of 12 self.now.spot self.now.place self.now.bytes.now }
    {
        let mut all = [0; 12];
        let mut part = *self;
        for slot in all.iter_mut() {
            let (field, left) = part.split();
            *slot = field.number()?;
            part = left;
        }
        part.nothing()?;
        Ok(all)
    }
}
