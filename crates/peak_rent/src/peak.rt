ghost use Rattle.std.specs.Prelude.{◌≡◌, ◌*◌, ◌/◌, ◌≤◌, ◌&&◌, true, false, nat_le, MatchResult};
ghost use Rattle.peak_rent.specs.declared.refusal.RentRefusal.TheVariants.{PeakOutOfRange, HourOutOfRange};
ghost use Rattle.peak_rent.specs.Rents.{in_range, hour_rent};

use crate::hour::Hour;
use crate::refusal::RentRefusal;

const MOST_PEAK: u64 = 100000;

// The system peak of a month in megawatts, in its range.
#[derive(Clone, Copy)]
pub(crate) struct Peak {
    megawatts: u64,
    ghost low: { 1 ≤ megawatts },
    ghost high: { megawatts ≤ 100000 },
}

impl Peak {
    // The peak, if it is in its range.
    pub(crate) fn new(megawatts: u64) -> Result<Peak, RentRefusal>
        ensures { MatchResult result
            (λ peak. peak.megawatts ≡ megawatts)
            (λ refusal. (refusal ≡ PeakOutOfRange) × ((nat_le 1 megawatts && nat_le megawatts 100000) ≡ false)) }
    {
        if !(1..=MOST_PEAK).contains(&megawatts) {
            return Err(RentRefusal::PeakOutOfRange);
        }
        Ok(Peak { megawatts })
    }

    #[tactic(auto, using(crate::proofs::Hours::product, crate::proofs::Hours::rent_most))]
    fn rent_of(self, margin: u64, load: u64) -> u64
        requires { (margin ≤ 1000000) × (load ≤ self.megawatts) }
        ensures value { result ≡ margin * 19 * load / (2 * self.megawatts) }
        ensures most { result ≤ 9500000 }
    {
        margin * 19 * load / (2 * self.megawatts)
    }

    // What an hour in range adds to the month's rent.
    fn hour_rent(self, hour: &Hour) -> u64
        requires { in_range hour.now ≡ true }
        ensures value { result ≡ hour_rent self.megawatts hour.now }
        ensures most { result ≤ 9500000 }
    {
        if !hour.is_above_strike() {
            return 0;
        }
        let load = hour.load as u64;
        self.rent_of(hour.margin(), load.min(self.megawatts))
    }

    // The same for any hour, tested first.
    pub(crate) fn tested_rent(self, hour: &Hour) -> Result<u64, RentRefusal>
        ensures { MatchResult result
            (λ rent. (in_range hour.now ≡ true) × (rent ≡ hour_rent self.megawatts hour.now) × (rent ≤ 9500000))
            (λ refusal. (in_range hour.now ≡ false) × (refusal ≡ HourOutOfRange)) }
    {
        if !hour.is_in_range() {
            return Err(RentRefusal::HourOutOfRange);
        }
        Ok(self.hour_rent(hour))
    }
}
