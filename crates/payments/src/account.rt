// What a resource is paid for a month, and what is deducted from it.
ghost use Rattle.std.specs.Prelude.{◌≡◌, ◌-◌, ◌≤◌, drop, length, All, pos, ◌-ℤ◌, ◌*ℤ◌, unsigned_abs, IfSome, MatchOption};
ghost use Rattle.rules.specs.Kept.{TradeBounded, ZoneBounded};
ghost use Rattle.rules.specs.Ledger.{resource_of, zone_of, price_of};
ghost use Rattle.rules.specs.Payments.{auctioned, exchanged, payment as paid, payment_without_bilaterals as paid_without_bilaterals};
ghost use Rattle.rules.specs.Rents.{deduction as deducted, exposed, mean_rent as mean};
ghost use Rattle.rules.specs.Rows.{no_zone};
ghost use Rattle.rules.specs.Sums.{Known};
ghost use Rattle.rules.specs.Totals.{total};
ghost use Rattle.standing.specs.View.{entries_of};
ghost use Rattle.payments.specs.Settles.{Settles, zone_row};

use crate::rents::{RentsBefore, remaining_rents};
use crate::trades::{auction_pay, bilateral_pay, worth};
use rules::rows::{Resource, Trade, Zone};
use standing::Standing;

// What is above the self-supplied part.
fn above(held: u64, supplied: u64) -> u64
    ensures { result ≡ held - supplied }
{
    held.saturating_sub(supplied)
}

// The resource of that number, in a book whose entries keep their limits.
#[derive(Clone, Copy)]
pub struct Account<'a> {
    pub standing: &'a Standing,
    pub number: u64,
    pub resource: &'a Resource,
    ghost limits: { ∥ Settles (entries_of standing.now) ∥₁ },
    ghost stands: { resource_of (entries_of standing.now) number ≡ resource.now },
}

impl Account<'_> {
    // The zone of the resource. A number that is no zone's stands for a zone with no price and no rents.
    fn zone(&self) -> Option<Zone>
        ensures found { let row = zone_row (entries_of self.now.standing.now) self.now.number in MatchOption result (row ≡ no_zone) (λ z. row ≡ z) }
        ensures limits { IfSome result (λ z. ZoneBounded z) }
    {
        self.standing.zone(self.resource.zone)
    }

    fn price(&self) -> u64
        ensures value { result ≡ price_of (entries_of self.now.standing.now) self.now.number }
        ensures most { result ≤ 20000 }
    {
        self.zone().map_or(0, |zone| zone.price)
    }

    // The rents before June that still count.
    fn prior_rents(&self, rents: &RentsBefore) -> u64
        ensures value { pos result ≡ total pos (drop (rents.now.month - 1) (zone_row (entries_of self.now.standing.now) self.now.number).rents) }
        ensures most { result ≤ 120000000000 }
    {
        let month = rents.month;
        self.zone().map_or(0, |zone| remaining_rents(&zone, month))
    }

    // The mean of the zone's twelve rents before the month.
    fn mean_rent(&self, rents: &RentsBefore) -> u64
        ensures value { pos result ≡ mean (entries_of self.now.standing.now) rents.now.entered.now (zone_of (entries_of self.now.standing.now) self.now.number) rents.now.month }
        ensures most { result ≤ 90000000000 }
    {
        let entered = rents.of_zone(self.resource.zone);
        (self.prior_rents(rents) + entered) / 12
    }

    // What was cleared, but for the self-supplied part, at the zone's price.
    fn cleared_pay(&self) -> i64
        ensures value { let s = entries_of self.now.standing.now in let r = resource_of s self.now.number in result ≡ (pos r.cleared -ℤ pos r.supplied) *ℤ pos (price_of s self.now.number) }
        ensures most { unsigned_abs result ≤ 4000000000 }
    {
        let bought = self.resource.cleared - self.resource.supplied;
        worth(bought as i64, self.price())
    }

    fn trades(&self) -> &[Trade]
        ensures all { result.now ≡ (entries_of self.now.standing.now).trades }
        ensures few { length result.now ≤ 128 }
        ensures limits { All TradeBounded result.now }
    {
        self.standing.trades()
    }

    // What auctions pay for the month. Bilaterals have a chain of their own: a sum that both share would ask
    // for the amount of each trade as a ghost argument, and for two facts on it at each call.
    fn auctions(&self, month: u64) -> i64
        ensures value { result ≡ total (auctioned self.now.number month) (entries_of self.now.standing.now).trades }
        ensures most { unsigned_abs result ≤ 512000000000 }
    {
        self.trades()
            .iter()
            .map(|trade| auction_pay(trade, self.number, month))
            .sum()
    }

    // What bilaterals pay for the month.
    fn bilaterals(&self, month: u64) -> i64
        ensures value { result ≡ total (exchanged self.now.number month) (entries_of self.now.standing.now).trades }
        ensures most { unsigned_abs result ≤ 512000000000 }
    {
        self.trades()
            .iter()
            .map(|trade| bilateral_pay(trade, self.number, month))
            .sum()
    }

    // The payment for the month, but for bilaterals: they are no part of a zone's cost.
    #[tactic(auto, unfolding(rules::specs::Payments::payment_without_bilaterals))]
    pub fn payment_without_bilaterals(&self, month: u64) -> i64
        ensures value { result ≡ paid_without_bilaterals (entries_of self.now.standing.now) self.now.number month }
        ensures most { unsigned_abs result ≤ 516000000000 }
    {
        self.cleared_pay() + self.auctions(month)
    }

    // The payment for the month, before deductions.
    #[tactic(auto, unfolding(rules::specs::Payments::payment))]
    pub fn payment(&self, month: u64) -> i64
        ensures value { result ≡ paid (entries_of self.now.standing.now) self.now.number month }
        ensures most { unsigned_abs result ≤ 1028000000000 }
    {
        self.payment_without_bilaterals(month) + self.bilaterals(month)
    }

    // What of the position is above the self-supplied part. A plain month: the rents before a month carry its range,
    // and no rent is read here.
    fn exposed(&self, month: u64) -> u64
        requires known { Known (entries_of self.now.standing.now) self.now.number }
        requires month { (1 ≤ month) × (month ≤ 12) }
        ensures value { pos result ≡ exposed (entries_of self.now.standing.now) self.now.number month }
        ensures most { result ≤ 200000 }
    {
        let held = self.resource.row[month as usize - 1];
        above(held, self.resource.supplied)
    }

    // The deduction of a month: the lesser of what the exposed part is worth at the price and at the mean rent.
    #[tactic(auto, unfolding(rules::specs::Rents::deduction))]
    pub fn deduction(&self, rents: &RentsBefore) -> i64
        requires known { Known (entries_of self.now.standing.now) self.now.number }
        ensures value { result ≡ deducted (entries_of self.now.standing.now) rents.now.entered.now self.now.number rents.now.month }
        ensures most { unsigned_abs result ≤ 4000000000 }
    {
        if !self.resource.class.treatment().deducted {
            return 0;
        }
        let exposed = self.exposed(rents.month);
        let at_price = exposed * self.price();
        let at_rent = self.mean_rent(rents) * exposed / 1000;
        at_price.min(at_rent) as i64
    }
}
