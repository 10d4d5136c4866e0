// A reader over a sheet's bytes, which knows the line and the field that it stands at.
ghost use Rattle.std.specs.Prelude.{◌+◌, ◌^◌, ◌<◌, length};

use crate::faults::Spot;

mod cutting;
mod parts;

// `row` is what is left of the line, with the space in front of the next field, and `rest` the text after the line.
// Nothing of the type bounds `place`, since a missing field takes no byte of the line. So who asks for a further field says that
// few were asked for: a count that stops at its greatest value would stand as a `min` in each clause on places.
#[derive(Drop)]
pub struct Reader<'a> {
    row: &'a [u8],
    rest: &'a [u8],
    spot: Spot,
    place: usize,
    ghost few: { spot.line + length rest.now + 1 < 2 ^ 64 },
}

// A part of the sheet, with its line and its place in the line.
#[derive(Clone, Copy)]
pub struct Field<'a> {
    pub bytes: &'a [u8],
    pub spot: Spot,
    pub place: usize,
}
