// The tests that refuse and need no entries. Each is a rule with a definition and a refusal of its own; what they share is
// `Refusal::when`.
ghost use Rattle.std.specs.Prelude.{◌≡◌};
ghost use Rattle.rules.specs.Tests.{price_test, rents_test, cleared_test, supplied_test, obligation_test, parties_test, quantity_test};

use rules::refusal::Refusal;
use rules::values::some_above;

pub fn test_price(price: u64) -> Result<(), Refusal>
    ensures { result ≡ price_test price }
{
    Refusal::Price.when(price > 20000)
}

pub fn test_rents(rents: &[u64; 12]) -> Result<(), Refusal>
    ensures { result ≡ rents_test rents.now }
{
    Refusal::PriorRent.when(some_above(10000000000, rents))
}

pub fn test_cleared(cleared: u64) -> Result<(), Refusal>
    ensures { result ≡ cleared_test cleared }
{
    Refusal::Cleared.when(cleared > 200000)
}

pub fn test_supplied(cleared: u64, supplied: u64) -> Result<(), Refusal>
    ensures { result ≡ supplied_test cleared supplied }
{
    Refusal::SelfSupply.when(supplied > cleared)
}

pub fn test_obligation(obligation: i64) -> Result<(), Refusal>
    ensures { result ≡ obligation_test obligation }
{
    Refusal::Obligation.when(!(-200000..=200000).contains(&obligation))
}

pub fn test_parties(shedder: u64, zone: u64, acquirer: u64, other: u64) -> Result<(), Refusal>
    ensures { result ≡ parties_test shedder zone acquirer other }
{
    Refusal::Parties.when(shedder == acquirer || zone != other)
}

pub fn test_quantity(quantity: u64) -> Result<(), Refusal>
    ensures { result ≡ quantity_test quantity }
{
    Refusal::Quantity.when(!(1..=200000).contains(&quantity))
}
