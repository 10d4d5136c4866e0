// What a trade pays a resource for a month.
ghost use Rattle.std.specs.Prelude.{◌≡◌, ◌≤◌, ◌&&◌, pos, ◌-ℤ◌, ◌*ℤ◌, nat_le, unsigned_abs};
ghost use Rattle.rules.specs.Kept.{TradeBounded};
ghost use Rattle.rules.specs.Payments.{auctioned, exchanged};
ghost use Rattle.rules.specs.Totals.{only};

use rules::rows::Trade;

// The month is one of those from first to last.
fn runs(first: u64, last: u64, month: u64) -> bool
    ensures { result ≡ (nat_le first month && nat_le month last) }
{
    (first..=last).contains(&month)
}

#[tactic(auto, unfolding(rules::specs::Totals::only))]
fn amount_where(holds: bool, amount: i64) -> i64
    ensures value { result ≡ only holds amount }
    ensures most { unsigned_abs result ≤ unsigned_abs amount }
{
    if holds { amount } else { 0 }
}

// What a quantity comes to at a price.
#[tactic(auto, using(crate::proofs::Sizes::product_small))]
pub fn worth(quantity: i64, price: u64) -> i64
    requires { (unsigned_abs quantity ≤ 200000) × (price ≤ 20000) }
    ensures value { result ≡ quantity *ℤ pos price }
    ensures most { unsigned_abs result ≤ 4000000000 }
{
    quantity * price as i64
}

// What an auction pays: a positive quantity is paid for, and a negative one pays.
#[tactic(auto, unfolding(rules::specs::Payments::auctioned, rules::specs::Positions::runs))]
pub fn auction_pay(trade: &Trade, resource: u64, month: u64) -> i64
    requires { TradeBounded trade.now }
    ensures value { result ≡ auctioned resource month trade.now }
    ensures most { unsigned_abs result ≤ 4000000000 }
{
    let Trade::Auction(auction) = *trade else {
        return 0;
    };
    let amount = worth(auction.quantity, auction.price);
    let paid = amount_where(auction.resource == resource, amount);
    amount_where(runs(auction.first, auction.last, month), paid)
}

// What is acquired is gained, and what is shed is lost.
#[tactic(auto, using(crate::proofs::Sizes::exchange_small))]
fn exchange(acquires: bool, sheds: bool, amount: i64) -> i64
    requires { unsigned_abs amount ≤ 4000000000 }
    ensures value { result ≡ only acquires amount -ℤ only sheds amount }
    ensures most { unsigned_abs result ≤ 4000000000 }
{
    amount_where(acquires, amount) - amount_where(sheds, amount)
}

// What a bilateral pays: the acquirer gains what the shedder loses.
#[tactic(auto, unfolding(rules::specs::Payments::exchanged, rules::specs::Positions::runs))]
pub fn bilateral_pay(trade: &Trade, resource: u64, month: u64) -> i64
    requires { TradeBounded trade.now }
    ensures value { result ≡ exchanged resource month trade.now }
    ensures most { unsigned_abs result ≤ 4000000000 }
{
    let Trade::Bilateral(bilateral) = *trade else {
        return 0;
    };
    let amount = (bilateral.quantity * bilateral.price) as i64;
    let gained = bilateral.acquirer == resource;
    let lost = bilateral.shedder == resource;
    let exchanged = exchange(gained, lost, amount);
    amount_where(runs(bilateral.first, bilateral.last, month), exchanged)
}
