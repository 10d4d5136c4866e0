ghost use Rattle.std.specs.Prelude.{◌≡◌};
ghost use Rattle.rent_input.specs.Lines.{at_place, nothing_left, hour_of, peak_of};

use crate::faults::Wrong;
use peak_rent::Hour;
use text::{first_field, next_field, number, signed};

// The number of a field at its place, by what the field reads as.
fn number_at<T: Drop>(place: usize, field: &[u8], number: Option<T>) -> Result<T, Wrong>
    ensures { result ≡ at_place place field.now number }
{
    if field.is_empty() {
        return Err(Wrong::Missing(place));
    }
    number.ok_or(Wrong::NotANumber(place))
}

// Nothing is left of a line. With no value to answer an `if` is shorter than `then_some(()).ok_or(..)`.
fn end_at(place: usize, left: &[u8]) -> Result<(), Wrong>
    ensures { result ≡ nothing_left place left.now }
{
    if left.is_empty() {
        Ok(())
    } else {
        Err(Wrong::Surplus(place))
    }
}

// The line of an hour: price, strike and load. Their places are written out: no line has more than three fields.
pub fn hour_at(line: &[u8]) -> Result<Hour, Wrong>
    ensures { result ≡ hour_of line.now }
{
    let (first, left) = first_field(line);
    let price = number_at(1, first, signed(first))?;
    let (second, left) = next_field(left);
    let strike = number_at(2, second, signed(second))?;
    let (third, left) = next_field(left);
    let load = number_at(3, third, signed(third))?;
    end_at(4, left)?;
    Ok(Hour {
        price,
        strike,
        load,
    })
}

// The first line: the peak.
pub fn peak_at(line: &[u8]) -> Result<u64, Wrong>
    ensures { result ≡ peak_of line.now }
{
    let (first, left) = first_field(line);
    let peak = number_at(1, first, number(first))?;
    end_at(2, left)?;
    Ok(peak)
}
