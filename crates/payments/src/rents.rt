// The rents of a zone before a month.
ghost use Rattle.std.specs.Prelude.{◌≡◌, ◌-◌, ◌<◌, ◌≤◌, ◌^◌, length, drop, pos, sum, sum_by, filter};
ghost use Rattle.rules.specs.Kept.{ZoneBounded};
ghost use Rattle.rules.specs.Rents.{rent_before};
ghost use Rattle.rules.specs.Totals.{total};
ghost use Rattle.payments.specs.Settles.{AmountsBounded};
ghost use Rattle.payments.specs.Earlier.{is_earlier};

use rules::rows::{Rent, Zone};

// The rents entered since June, as a month finds them.
#[derive(Clone, Copy)]
pub struct RentsBefore<'a> {
    pub entered: &'a [Rent],
    pub month: u64,
    ghost amounts: { AmountsBounded entered.now },
    ghost few: { length entered.now ≤ 96 },
    ghost low: { 1 ≤ month },
    ghost high: { month ≤ 12 },
}

// Of the zone's rents before June, those that the months begun since have not pushed out. A plain month: the rents
// entered since carry its range, and none of them is read here.
pub fn remaining_rents(zone: &Zone, month: u64) -> u64
    requires limits { ZoneBounded zone.now }
    requires month { (1 ≤ month) × (month ≤ 12) }
    ensures value { result ≡ sum (drop (month - 1) zone.now.rents) }
    ensures most { result ≤ 120000000000 }
{
    zone.rents[month as usize - 1..].iter().sum()
}

#[tactic(auto, unfolding(crate::specs::Earlier::is_earlier))]
fn is_earlier(rent: &Rent, zone: u64, month: u64) -> bool
    ensures { result ≡ is_earlier zone month rent.now }
{
    rent.zone == zone && rent.month < month
}

fn earlier_sum(rents: &[Rent], zone: u64, month: u64) -> u64
    requires { sum_by (λ r. r.amount) (filter (is_earlier zone month) rents.now) < 2 ^ 64 }
    ensures { result ≡ sum_by (λ r. r.amount) (filter (is_earlier zone month) rents.now) }
{
    rents
        .iter()
        .filter(|rent| is_earlier(rent, zone, month))
        .map(|rent| rent.amount)
        .sum()
}

impl RentsBefore<'_> {
    // The rents entered for the zone's earlier months.
    #[tactic(auto, using(crate::proofs::Sums::entered_total, crate::proofs::Sums::entered_small))]
    pub(crate) fn of_zone(&self, zone: u64) -> u64
        ensures value { pos result ≡ total (rent_before zone self.now.month) self.now.entered.now }
        ensures most { result ≤ 960000000000 }
    {
        earlier_sum(self.entered, zone, self.month)
    }
}
