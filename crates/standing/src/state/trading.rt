// Trades, which change positions.
ghost use Rattle.std.specs.Prelude.{◌≡◌, ◌+◌, ◌<◌, ◌≤◌, true, IfOk, vec_len};
ghost use Rattle.standing.specs.View.{entries_of};
ghost use Rattle.rules.specs.Within.{within};
ghost use Rattle.rules.specs.Entries.{book_auction, book_bilateral};
ghost use Rattle.rules.specs.Ledger.{more_trade};
ghost use Rattle.rules.specs.Tests.{months_test, position_test};

use super::Standing;
use crate::limits::*;
use rules::position::row_changed;
use rules::refusal::Refusal;
use rules::rows::{Auction, Bilateral, Change, Trade};

// The row after the change, whose every month stays within the limits.
fn test_position(change: Change, row: [u64; 12]) -> Result<[u64; 12], Refusal>
    requires { within row ≡ true }
    ensures same { result ≡ position_test change row }
    ensures limits { IfOk result (λ x. within x ≡ true) }
{
    row_changed(row, change).ok_or(Refusal::Position)
}

// The months of a trade are of the period, in order, and none of them has begun.
fn test_months(month: u64, first: u64, last: u64) -> Result<(), Refusal>
    ensures { result ≡ months_test month first last }
{
    Refusal::Months.when(first < 1 || last < first || last > 12 || first <= month)
}

impl Standing {
    // Books the trade after the others, and answers its number.
    fn book(&mut self, trade: Trade) -> u64
        requires { vec_len self.old.trades.entries < 128 }
        ensures number { result ≡ vec_len self.old.trades.entries + 1 }
        ensures booked { entries_of self.new ≡ more_trade (entries_of self.old) (entries_of self.old).resources trade }
    {
        self.trades.push(trade)
    }

    // Books an auction once the book has come to `month`, and answers the trade's number.
    pub fn book_auction(&mut self, month: u64, trade: Auction) -> Result<u64, Refusal>
        ensures { (result, entries_of self.new) ≡ book_auction (entries_of self.old) month trade }
    {
        self.trades.test_room(Refusal::TradesFull)?;
        let mut held = self.resource(trade.resource)?;
        test_months(month, trade.first, trade.last)?;
        test_price(trade.price)?;
        test_quantity(trade.quantity.unsigned_abs())?;
        held.row = test_position(trade.change(), held.row)?;
        self.resources.replace(trade.resource, held);
        Ok(self.book(Trade::Auction(trade)))
    }

    // Books a bilateral, by which the shedder's position goes over to the acquirer, and answers the trade's number.
    pub fn book_bilateral(&mut self, month: u64, trade: Bilateral) -> Result<u64, Refusal>
        ensures { (result, entries_of self.new) ≡ book_bilateral (entries_of self.old) month trade }
    {
        self.trades.test_room(Refusal::TradesFull)?;
        let mut from = self.resource(trade.shedder)?;
        let mut to = self.resource(trade.acquirer)?;
        test_parties(trade.shedder, from.zone, trade.acquirer, to.zone)?;
        test_months(month, trade.first, trade.last)?;
        test_price(trade.price)?;
        test_quantity(trade.quantity)?;
        from.row = test_position(trade.shed(), from.row)?;
        to.row = test_position(trade.acquired(), to.row)?;
        self.resources.replace(trade.shedder, from);
        self.resources.replace(trade.acquirer, to);
        Ok(self.book(Trade::Bilateral(trade)))
    }
}
