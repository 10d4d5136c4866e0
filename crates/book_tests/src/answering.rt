use crate::entering::{offer, zone};
use crate::trading::{auction, bilateral};
use book::{Book, MonthTicket};
use rules::refusal::Refusal;
use std::test::Fail;

// A position, or 1,000,000 and the number of the refusal.
// Told by numbers, so that the tests pin the number of each refusal too.
fn held(answer: Result<u64, Refusal>) -> u64 {
    answer.unwrap_or_else(|refusal| 1000000 + u64::from(refusal.number()))
}

// The payment and deduction of a resource, or the number of the refusal in place of the payment.
// Told by numbers, so that the tests pin the number of each refusal too.
fn terms(book: &Book, ticket: &MonthTicket, resource: u64) -> (i64, i64) {
    book.terms(ticket, resource).map_or_else(
        |refusal| (i64::from(refusal.number()), -1),
        |terms| (terms.payment, terms.deduction),
    )
}

#[test]
fn positions(rt: HostRuntime) -> Result<(), Fail> {
    let mut book = Book::new(rt.alloc())?;
    let ticket = book.open(2010, 26000)?;
    book.zone(&ticket, zone(4500, [0; 12]))?;
    book.resource(&ticket, offer(1, b'G', 10000, 0))?;
    book.resource(&ticket, offer(1, b'P', 500, 0))?;
    book.bilateral(bilateral((1, 2), (2, 3), 100, 4000))?;
    book.auction(auction(2, (3, 12), -50, 0))?;
    book.auction(auction(2, (12, 12), 7, 0))?;
    let cases = [
        (1, 1, 10000),
        (1, 2, 9900),
        (1, 3, 9900),
        (1, 4, 10000),
        (2, 1, 500),
        (2, 2, 600),
        (2, 3, 550),
        (2, 4, 450),
        (2, 12, 457),
        (0, 0, 1000016),
        (3, 1, 1000016),
        (1, 0, 1000018),
        (1, 13, 1000018),
        (u64::MAX, u64::MAX, 1000016),
        (2, u64::MAX, 1000018),
    ];
    for (resource, month, answer) in cases {
        assert_eq!(rt; held(book.position(resource, month)), answer);
    }
    Ok(())
}

// June of a book with three zones at 4,500 mills: twelve rents of 1,000,000, twelve of 5,000,000, and twelve that sum to 1,211.
fn june(book: &mut Book) -> Result<MonthTicket, Fail> {
    let ticket = book.open(2010, 26000)?;
    book.zone(&ticket, zone(4500, [1000000; 12]))?;
    book.zone(&ticket, zone(4500, [5000000; 12]))?;
    book.zone(&ticket, zone(4500, [0, 0, 0, 0, 0, 0, 0, 0, 0, 0, 0, 1211]))?;
    for number in 1..4 {
        book.resource(&ticket, offer(number, b'G', 10000, 0))?;
        book.resource(&ticket, offer(number, b'S', 10000, 4000))?;
    }
    book.bilateral(bilateral((1, 2), (1, 1), 3000, 4000))?;
    book.auction(auction(4, (1, 3), -7000, 5000))?;
    book.auction(auction(5, (1, 1), 1, 20000))?;
    book.bilateral(bilateral((6, 5), (2, 2), 10000, 1))?;
    book.begin(ticket)
        .map_err(|_| Fail::new("June was refused"))
}

#[test]
fn terms_of_june(rt: HostRuntime) -> Result<(), Fail> {
    let mut book = Book::new(rt.alloc())?;
    let ticket = june(&mut book)?;
    let cases = [
        // 7,000 are left: 10,000 at 4,500 less 3,000 at 4,000; a mean rent of 1,000,000 takes 1,000 mills of each
        (1, 33000000, 7000000),
        // 6,000 at 4,500 and 3,000 at 4,000; 13,000 less 4,000 supplied itself
        (2, 39000000, 9000000),
        // a mean rent of 5,000,000 takes more than the price, which is the most
        (3, 45000000, 45000000),
        // 6,000 at 4,500 less 7,000 at 5,000; 3,000 is below the 4,000 supplied itself
        (4, -8000000, 0),
        // 1,211 over twelve months is 100; 100 times 10,001 in thousandths is 1,000
        (5, 45020000, 1000),
        (6, 27000000, 600),
        (0, 16, -1),
        (7, 16, -1),
        (u64::MAX, 16, -1),
    ];
    for (resource, payment, deduction) in cases {
        assert_eq!(rt; terms(&book, &ticket, resource), (payment, deduction));
    }
    // a trade of later months moves nothing of June
    book.auction(auction(1, (2, 12), 100000, 20000))?;
    assert_eq!(rt; terms(&book, &ticket, 1), (33000000, 7000000));
    // the ticket is tested first
    let mut other = Book::new(rt.alloc())?;
    assert_eq!(rt; terms(&other, &ticket, 9), (14, -1));
    let _ticket = other.open(2010, 1)?;
    assert_eq!(rt; terms(&other, &ticket, 1), (14, -1));
    Ok(())
}
