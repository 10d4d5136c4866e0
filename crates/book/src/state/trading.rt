// Trades, which change positions of months that have not begun. Each hands on to the standing entries, by its own definition.
ghost use Rattle.std.specs.Prelude.{◌≡◌};
ghost use Rattle.rules.specs.Calls.{auction_call, bilateral_call};
ghost use Rattle.book.specs.View.{view};

use super::Book;
use rules::refusal::Refusal;
use rules::rows::{Auction, Bilateral};

impl Book {
    // Books a bilateral, by which the shedder's position goes over to the acquirer, and answers the trade's number.
    pub fn bilateral(&mut self, trade: Bilateral) -> Result<u64, Refusal>
        ensures { (result, view self.new) ≡ bilateral_call (view self.old) trade }
    {
        self.standing.book_bilateral(self.month, trade)
    }

    // Books an auction, in which a resource acquires or sheds, and answers the trade's number.
    pub fn auction(&mut self, trade: Auction) -> Result<u64, Refusal>
        ensures { (result, view self.new) ≡ auction_call (view self.old) trade }
    {
        self.standing.book_auction(self.month, trade)
    }
}
