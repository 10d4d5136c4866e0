ghost use Rattle.std.specs.Prelude.{◌≡◌, ◌≤◌, true, ◌-ℤ◌, unsigned_abs};
ghost use Rattle.peak_rent.specs.Rents.{within, in_range, above_strike};

const MOST_PRICE: i64 = 1000000;

const MOST_LOAD: i64 = 100000;

fn is_within(low: i64, high: i64, x: i64) -> bool
    ensures { result ≡ within low high x }
{
    (low..=high).contains(&x)
}

// One hour: price and strike price in cents per megawatt-hour, the load in megawatts.
#[derive(Clone, Copy)]
pub struct Hour {
    pub price: i64,
    pub strike: i64,
    pub load: i64,
}

impl Hour {
    pub(crate) fn is_in_range(&self) -> bool
        ensures { result ≡ in_range self.now }
    {
        is_within(-MOST_PRICE, MOST_PRICE, self.price)
            && is_within(0, MOST_PRICE, self.strike)
            && is_within(0, MOST_LOAD, self.load)
    }

    pub(crate) fn is_above_strike(&self) -> bool
        ensures { result ≡ above_strike self.now }
    {
        self.price > self.strike
    }

    // How far the price is above the strike.
    pub(crate) fn margin(&self) -> u64
        requires range { in_range self.now ≡ true }
        requires above { above_strike self.now ≡ true }
        ensures value { result ≡ unsigned_abs (self.now.price -ℤ self.now.strike) }
        ensures most { result ≤ 1000000 }
    {
        (self.price - self.strike) as u64
    }
}
