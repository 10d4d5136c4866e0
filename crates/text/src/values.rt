// The values of fields, each of which is at fault where it stands.
ghost use Rattle.std.specs.Prelude.{◌≡◌};
ghost use Rattle.text.specs.Numbers.{numeral, signed_numeral};
ghost use Rattle.text.specs.Formats.{or_fault, capital, nothing, letter_is, only_letter};

use crate::faults::FieldFault;
use crate::numbers::{number, signed};
use crate::reader::Field;

impl Field<'_> {
    // The fault that the field is malformed, missing or surplus.
    pub fn fault(&self) -> FieldFault
        ensures spot { result.spot ≡ self.now.spot }
        ensures place { result.place ≡ self.now.place }
    {
        FieldFault {
            spot: self.spot,
            place: self.place,
        }
    }

    // `number`, `signed`: a line each, since each has a definition of its own for what the field says.
    pub fn number(&self) -> Result<u64, FieldFault>
        ensures { result ≡ or_fault (numeral self.now.bytes.now) self.now.spot self.now.place }
    {
        number(self.bytes).ok_or(self.fault())
    }

    pub fn signed(&self) -> Result<i64, FieldFault>
        ensures { result ≡ or_fault (signed_numeral self.now.bytes.now) self.now.spot self.now.place }
    {
        signed(self.bytes).ok_or(self.fault())
    }

    // The field is the one letter `c`, or at fault. An `if`, here and in `nothing`: with no value
    // to answer, `then_some(()).ok_or(..)` is the longer way to say it.
    pub fn fixed(&self, c: u8) -> Result<(), FieldFault>
        ensures { result ≡ or_fault (only_letter c self.now.bytes.now) self.now.spot self.now.place }
    {
        if self.is_letter(c) {
            Ok(())
        } else {
            Err(self.fault())
        }
    }

    // The field is the one letter `c`.
    pub fn is_letter(&self, c: u8) -> bool
        ensures { result ≡ letter_is c self.now.bytes.now }
    {
        matches!(self.bytes, [x] if *x == c)
    }

    // One capital letter.
    pub fn letter(&self) -> Result<u8, FieldFault>
        ensures { result ≡ or_fault (capital self.now.bytes.now) self.now.spot self.now.place }
    {
        match self.bytes {
            [c] if c.is_ascii_uppercase() => Ok(*c),
            _ => Err(self.fault()),
        }
    }

    // Nothing stands here.
    pub fn nothing(&self) -> Result<(), FieldFault>
        ensures { result ≡ or_fault (nothing self.now.bytes.now) self.now.spot self.now.place }
    {
        if self.bytes.is_empty() {
            Ok(())
        } else {
            Err(self.fault())
        }
    }
}
