use crate::entering::{offer, zone};
use crate::opening::entered;
use book::{Book, SetupTicket};
use rules::refusal::Refusal;
use rules::rows::{Auction, Bilateral};
use std::test::Fail;

// Two zones, the first with resources of 10,000, 500 and 199,950, the second with one of 100.
fn filled(book: &mut Book) -> Result<SetupTicket, Refusal> {
    let ticket = book.open(2010, 26000)?;
    book.zone(&ticket, zone(4500, [0; 12]))?;
    book.zone(&ticket, zone(4500, [0; 12]))?;
    book.resource(&ticket, offer(1, b'G', 10000, 0))?;
    book.resource(&ticket, offer(1, b'P', 500, 0))?;
    book.resource(&ticket, offer(1, b'I', 199950, 0))?;
    book.resource(&ticket, offer(2, b'G', 100, 0))?;
    Ok(ticket)
}

// A bilateral, by its parties and months.
pub fn bilateral(
    (shedder, acquirer): (u64, u64),
    (first, last): (u64, u64),
    quantity: u64,
    price: u64,
) -> Bilateral {
    Bilateral {
        shedder,
        acquirer,
        first,
        last,
        quantity,
        price,
    }
}

pub fn auction(resource: u64, (first, last): (u64, u64), quantity: i64, price: u64) -> Auction {
    Auction {
        resource,
        first,
        last,
        quantity,
        price,
    }
}

#[test]
fn bilaterals(rt: HostRuntime) -> Result<(), Fail> {
    let mut book = Book::new(rt.alloc())?;
    let _ticket = filled(&mut book)?;
    let cases = [
        (1, 2, 2, 3, 100, 4000, 1),
        (0, 0, 0, 0, 0, 20001, 116),
        (1, 5, 0, 0, 0, 20001, 116),
        (1, 1, 0, 0, 0, 20001, 117),
        (1, 4, 0, 0, 0, 20001, 117),
        (1, 2, 0, 3, 0, 20001, 118),
        (1, 2, 3, 2, 0, 20001, 118),
        (1, 2, 12, 13, 0, 20001, 118),
        (1, 2, 1, 12, 0, 20001, 104),
        (1, 2, 1, 12, 0, 20000, 119),
        (1, 2, 1, 12, 200001, 20000, 119),
        // the shedder has 500 in every month but the two of the first bilateral
        (2, 1, 1, 1, 501, 0, 120),
        (2, 1, 2, 3, 600, 0, 2),
        (2, 1, 1, 2, 1, 0, 120),
        // the acquirer would pass 200,000
        (1, 3, 12, 12, 51, 0, 120),
        (1, 3, 12, 12, 50, 0, 3),
    ];
    for (shedder, acquirer, first, last, quantity, price, answer) in cases {
        let trade = bilateral((shedder, acquirer), (first, last), quantity, price);
        assert_eq!(rt; entered(book.bilateral(trade)), answer);
    }
    Ok(())
}

#[test]
fn auctions(rt: HostRuntime) -> Result<(), Fail> {
    let mut book = Book::new(rt.alloc())?;
    let _ticket = filled(&mut book)?;
    let cases = [
        (5, 0, 0, 0, 20001, 116),
        (1, 0, 0, 0, 20001, 118),
        (1, 1, 12, 0, 20001, 104),
        (1, 1, 12, 0, 20000, 119),
        (1, 1, 12, 200001, 0, 119),
        (1, 1, 12, i64::MIN, 0, 119),
        (4, 3, 4, -101, 0, 120),
        (4, 3, 4, -100, 0, 1),
        (4, 4, 5, -1, 0, 120),
        (4, 5, 5, -1, 0, 2),
        (3, 1, 1, 51, 0, 120),
        (3, 1, 1, 50, 20000, 3),
    ];
    for (resource, first, last, quantity, price, answer) in cases {
        let trade = auction(resource, (first, last), quantity, price);
        assert_eq!(rt; entered(book.auction(trade)), answer);
    }
    for number in 4..129 {
        assert_eq!(rt; entered(book.auction(auction(1, (12, 12), 1, 0))), number);
    }
    assert_eq!(rt; entered(book.auction(auction(9, (0, 0), 0, 20001))), 115);
    assert_eq!(rt;
        entered(book.bilateral(bilateral((9, 0), (0, 0), 0, 20001))),
        115
    );
    Ok(())
}

#[test]
fn after_june_began(rt: HostRuntime) -> Result<(), Fail> {
    let mut book = Book::new(rt.alloc())?;
    let ticket = filled(&mut book)?;
    assert!(rt; book.begin(ticket).is_ok());
    assert_eq!(rt;
        entered(book.bilateral(bilateral((1, 2), (1, 12), 1, 0))),
        118
    );
    assert_eq!(rt; entered(book.auction(auction(1, (1, 1), 1, 0))), 118);
    assert_eq!(rt;
        entered(book.bilateral(bilateral((1, 2), (2, 12), 1, 0))),
        1
    );
    assert_eq!(rt; entered(book.auction(auction(1, (2, 2), 1, 0))), 2);
    Ok(())
}
