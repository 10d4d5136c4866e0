ghost use Rattle.std.specs.Prelude.{◌≡◌};
ghost use Rattle.peak_rent.specs.Refusals.{number_of};

// Why a month's rent is refused.
#[derive(Clone, Copy, PartialEq, Debug)]
pub enum RentRefusal {
    // the peak is outside 1 to 100,000 megawatts
    PeakOutOfRange = 2,
    // there are more than 744 hours
    TooManyHours = 28,
    // an hour has a price beyond 1,000,000 either way, a strike outside 0 to 1,000,000 or a load outside 0 to 100,000
    HourOutOfRange = 29,
}

impl RentRefusal {
    // A method: its callers use an equation, and `From` gives a relation.
    pub fn number(self) -> u64
        ensures { result ≡ number_of self }
    {
        self as u64
    }
}
