use crate::opening::entered;
use book::Book;
use rules::entry::Offer;
use rules::rows::{Load, Zone};
use std::test::Fail;

// What is entered, with its figures in the order of its line.
pub fn zone(price: u64, rents: [u64; 12]) -> Zone {
    Zone { price, rents }
}

pub fn offer(zone: u64, letter: u8, cleared: u64, supplied: u64) -> Offer {
    Offer {
        zone,
        letter,
        cleared,
        supplied,
    }
}

pub fn load(zone: u64, obligation: i64) -> Load {
    Load { zone, obligation }
}

#[test]
fn zones(rt: HostRuntime) -> Result<(), Fail> {
    let mut book = Book::new(rt.alloc())?;
    let ticket = book.open(2010, 26000)?;
    let mut high = [10000000000; 12];
    assert_eq!(rt; entered(book.zone(&ticket, zone(20000, high))), 1);
    assert_eq!(rt; entered(book.zone(&ticket, zone(20001, high))), 104);
    high[11] = 10000000001;
    assert_eq!(rt; entered(book.zone(&ticket, zone(20000, high))), 105);
    assert_eq!(rt; entered(book.zone(&ticket, zone(20001, high))), 104);
    for number in 2..9 {
        assert_eq!(rt; entered(book.zone(&ticket, zone(0, [0; 12]))), number);
    }
    assert_eq!(rt; entered(book.zone(&ticket, zone(20001, high))), 103);
    Ok(())
}

#[test]
fn resources(rt: HostRuntime) -> Result<(), Fail> {
    let mut book = Book::new(rt.alloc())?;
    let ticket = book.open(2010, 26000)?;
    assert_eq!(rt; entered(book.resource(&ticket, offer(1, b'G', 0, 0))), 106);
    assert_eq!(rt; entered(book.zone(&ticket, zone(4500, [0; 12]))), 1);
    let cases = [
        (1, b'G', 200000, 200000, 1),
        (1, b'I', 1, 0, 2),
        (1, b'N', 0, 0, 3),
        (1, b'P', 1, 1, 4),
        (1, b'S', 1, 0, 5),
        (0, b'X', 200001, 200002, 106),
        (2, b'G', 0, 0, 106),
        (u64::MAX, b'G', 0, 0, 106),
        (1, b'X', 200001, 200002, 108),
        (1, b'g', 0, 0, 108),
        (1, 0, 0, 0, 108),
        (1, 255, 0, 0, 108),
        (1, b'G', 200001, 200002, 109),
        (1, b'G', u64::MAX, 0, 109),
        (1, b'G', 200000, 200001, 110),
    ];
    for (zone, letter, cleared, supplied, answer) in cases {
        assert_eq!(rt;
            entered(book.resource(&ticket, offer(zone, letter, cleared, supplied))),
            answer
        );
    }
    for number in 6..65 {
        assert_eq!(rt;
            entered(book.resource(&ticket, offer(1, b'G', 0, 0))),
            number
        );
    }
    assert_eq!(rt; entered(book.resource(&ticket, offer(1, b'X', 0, 0))), 107);
    assert_eq!(rt; entered(book.resource(&ticket, offer(2, b'X', 0, 0))), 106);
    Ok(())
}

#[test]
fn loads(rt: HostRuntime) -> Result<(), Fail> {
    let mut book = Book::new(rt.alloc())?;
    let ticket = book.open(2010, 26000)?;
    assert_eq!(rt; entered(book.zone(&ticket, zone(4500, [0; 12]))), 1);
    let cases = [
        (1, 200000, 1),
        (1, -200000, 2),
        (1, 200001, 112),
        (1, -200001, 112),
        (1, i64::MIN, 112),
        (2, i64::MAX, 106),
    ];
    for (zone, obligation, answer) in cases {
        assert_eq!(rt; entered(book.load(&ticket, load(zone, obligation))), answer);
    }
    for number in 3..33 {
        assert_eq!(rt; entered(book.load(&ticket, load(1, 0))), number);
    }
    assert_eq!(rt; entered(book.load(&ticket, load(1, 200001))), 111);
    Ok(())
}
