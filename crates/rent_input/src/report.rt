ghost use Rattle.std.specs.Prelude.{◌≡◌};
ghost use Rattle.rent_input.specs.Reports.{report_of};

use crate::month::Month;
use peak_rent::{RentRefusal, hours_above_strike, month_rent};

// What is reported of a month: its hours, those with a price above the strike, and its rent.
#[derive(Clone, Copy)]
pub struct Report {
    pub hours: usize,
    pub above: usize,
    pub rent: u64,
}

pub fn report_on(month: &Month) -> Result<Report, RentRefusal>
    ensures { result ≡ report_of month.now.peak month.now.hours.items }
{
    let hours = month.hours.as_slice();
    let rent = month_rent(month.peak, hours)?;
    Ok(Report {
        hours: hours.len(),
        above: hours_above_strike(hours),
        rent,
    })
}
