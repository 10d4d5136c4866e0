use crate::entering::{load, offer, zone};
use book::Book;
use rules::refusal::Refusal;
use std::test::Fail;

// The number of a refusal, and 0 for what is carried out.
// Told by numbers, so that the tests pin the number of each refusal too.
pub fn refused<T: Drop>(answer: Result<T, Refusal>) -> u32 {
    answer.err().map_or(0, |refusal| refusal.number())
}

// The number of an entry, or 100 and the number of the refusal.
// Told by numbers, so that the tests pin the number of each refusal too.
pub fn entered(answer: Result<u64, Refusal>) -> u64 {
    answer.unwrap_or_else(|refusal| 100 + u64::from(refusal.number()))
}

#[test]
fn years_and_peaks(rt: HostRuntime) -> Result<(), Fail> {
    let mut book = Book::new(rt.alloc())?;
    let cases = [
        (2009, 1, 1),
        (2010, 1, 0),
        (2098, 100000, 0),
        (2099, 1, 1),
        (2010, 0, 2),
        (2010, 100001, 2),
        (2009, 0, 1),
        (u64::MAX, u64::MAX, 1),
    ];
    for (year, peak, answer) in cases {
        assert_eq!(rt; refused(book.open(year, peak)), answer);
    }
    Ok(())
}

#[test]
fn tickets(rt: HostRuntime) -> Result<(), Fail> {
    let mut book = Book::new(rt.alloc())?;
    let mut other = Book::new(rt.alloc())?;
    let first = book.open(2010, 26000)?;
    let second = other.open(2011, 1)?;
    // a ticket of another book in the same state passes
    assert_eq!(rt; entered(book.zone(&second, zone(1, [0; 12]))), 1);
    let _june = book
        .begin(first)
        .map_err(|_| Fail::new("June was refused"))?;
    // set-up is over, which is tested before anything else
    assert_eq!(rt; entered(book.zone(&second, zone(20001, [0; 12]))), 114);
    assert_eq!(rt; entered(book.resource(&second, offer(9, b'X', 0, 0))), 114);
    assert_eq!(rt; entered(book.load(&second, load(9, 0))), 114);
    // a refused step hands its ticket back, and the other book takes it
    let Err(back) = book.begin(second) else {
        return Err(Fail::new("June began twice"));
    };
    assert_eq!(rt; back.refusal.number(), 14);
    assert!(rt; other.begin(back.ticket).is_ok());
    Ok(())
}
