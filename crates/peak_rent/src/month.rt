ghost use Rattle.std.specs.Prelude.{◌≡◌, ◌≤◌, IfOk, count_by};
ghost use Rattle.peak_rent.specs.Rents.{above_strike, month_rent};

use crate::hour::Hour;
use crate::peak::Peak;
use crate::refusal::RentRefusal;

const MOST_HOURS: usize = 744;

// The month's rent in millionths of a dollar per kilowatt, over the system peak in megawatts.
pub fn month_rent(peak: u64, hours: &[Hour]) -> Result<u64, RentRefusal>
    ensures value { result ≡ month_rent peak hours.now }
    ensures most { IfOk result (λ rent. rent ≤ 7068000000) }
{
    let peak = Peak::new(peak)?;
    if hours.len() > MOST_HOURS {
        return Err(RentRefusal::TooManyHours);
    }
    // a `for` with `?`: a sum into a Result loses the bound on what was added so far
    let mut rent = 0;
    for hour in hours {
        rent += peak.tested_rent(hour)?;
    }
    Ok(rent)
}

// How many hours have a price above their strike.
pub fn hours_above_strike(hours: &[Hour]) -> usize
    ensures { result ≡ count_by above_strike hours.now }
{
    hours.iter().filter(|hour| hour.is_above_strike()).count()
}
