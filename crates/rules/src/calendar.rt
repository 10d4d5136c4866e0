// The months of a period, June to May.
ghost use Rattle.std.specs.Prelude.{◌≡◌};
ghost use Rattle.rules.specs.Calendar.{days, february};

// February is of the year after the opening one. The opening years run from 2010 to 2098, so every year that 4 divides is a
// leap year.
fn days_of_february(year: u64) -> u64
    ensures { result ≡ february year }
{
    if year % 4 == 3 { 29 } else { 28 }
}

// The days of a month, where the period begins in June of `year`; 0, as the rule says, for a number that is no month.
pub fn days_of(year: u64, month: u64) -> u64
    ensures { result ≡ days year month }
{
    match month {
        // June, September, November and April
        1 | 4 | 6 | 11 => 30,
        2 | 3 | 5 | 7 | 8 | 10 | 12 => 31,
        9 => days_of_february(year),
        _ => 0,
    }
}
