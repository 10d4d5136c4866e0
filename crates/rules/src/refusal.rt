// Why a call was refused. A refused call changes nothing. Each refusal is known by its number.
ghost use Rattle.std.specs.Prelude.{◌≡◌};
ghost use Rattle.rules.specs.Refusals.{number_of};
ghost use Rattle.rules.specs.Tests.{barred};

#[derive(Clone, Copy, PartialEq, Eq, Debug)]
pub enum Refusal {
    Year = 1,
    Peak = 2,
    ZonesFull = 3,
    Price = 4,
    PriorRent = 5,
    ZoneUnknown = 6,
    ResourcesFull = 7,
    ClassUnknown = 8,
    Cleared = 9,
    SelfSupply = 10,
    LoadsFull = 11,
    Obligation = 12,
    PeriodOver = 13,
    Ticket = 14,
    TradesFull = 15,
    ResourceUnknown = 16,
    Parties = 17,
    Months = 18,
    Quantity = 19,
    Position = 20,
    EventHours = 21,
    EventOverlap = 22,
    EventsFull = 23,
    NotCovered = 24,
    RentAmount = 25,
    RentEntered = 26,
    RentMissing = 27,
    NotClosed = 30,
    LoadUnknown = 31,
    BufferShort = 35,
}

impl Refusal {
    // The number by which the refusal is known. A method: its callers use an equation, and `From` gives a relation.
    pub fn number(&self) -> u32
        ensures { result ≡ number_of self.now }
    {
        *self as u32
    }

    // Refuses where the fault is there.
    pub fn when(self, fault: bool) -> Result<(), Refusal>
        ensures { result ≡ barred fault self }
    {
        if fault { Err(self) } else { Ok(()) }
    }
}
