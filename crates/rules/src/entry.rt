// What is entered into a book in set-up, and the trades that are booked there: an entry for each line of a standing sheet.
use crate::rows::{Load, Trade, Zone};

// A resource as it is entered, by the letter of its class: what its offer cleared, and the self-supplied part.
#[derive(Clone, Copy)]
pub struct Offer {
    pub zone: u64,
    // of any value: the book tests it, in its order
    pub letter: u8,
    pub cleared: u64,
    pub supplied: u64,
}

#[derive(Clone, Copy)]
pub enum Entry {
    Zone(Zone),
    Resource(Offer),
    Load(Load),
    Trade(Trade),
}
