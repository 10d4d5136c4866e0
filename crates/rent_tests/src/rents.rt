use peak_rent::{Hour, RentRefusal, hours_above_strike, month_rent};
use std::process::Abort;

fn hour(price: i64, strike: i64, load: i64) -> Hour {
    Hour {
        price,
        strike,
        load,
    }
}

// The answer for a month of one hour.
type Case = (u64, Hour, Result<u64, RentRefusal>);

fn answers(rt: &impl Abort, months: &[Case]) {
    for (peak, hour, answer) in months {
        assert_eq!(rt; month_rent(*peak, &[*hour]), *answer);
    }
}

#[test]
fn rents_of_one_hour(rt: HostRuntime) {
    answers(
        &rt,
        &[
            (25000, hour(30000, 20000, 20000), Ok(76000)),
            (25000, hour(20000, 20000, 20000), Ok(0)),
            (25000, hour(20001, 20000, 25000), Ok(9)),
            (25000, hour(-30000, 20000, 20000), Ok(0)),
            (25000, hour(30000, 20000, 25000), Ok(95000)),
            (25000, hour(30000, 20000, 99999), Ok(95000)),
            (25000, hour(30000, 20000, 0), Ok(0)),
            (1, hour(3, 1, 1), Ok(19)),
            (100000, hour(1000000, 0, 100000), Ok(9500000)),
        ],
    );
}

#[test]
fn figures_at_their_limits(rt: HostRuntime) {
    let refused = Err(RentRefusal::HourOutOfRange);
    let peak = Err(RentRefusal::PeakOutOfRange);
    answers(
        &rt,
        &[
            (0, hour(0, -1, 0), peak),
            (100001, hour(0, 0, 0), peak),
            (u64::MAX, hour(0, 0, 0), peak),
            (1, hour(-1000000, 1000000, 100000), Ok(0)),
            (1, hour(1000001, 0, 0), refused),
            (1, hour(-1000001, 0, 0), refused),
            (1, hour(0, -1, 0), refused),
            (1, hour(0, 1000001, 0), refused),
            (1, hour(0, 0, -1), refused),
            (1, hour(0, 0, 100001), refused),
            (1, hour(i64::MIN, i64::MAX, i64::MIN), refused),
        ],
    );
}

#[test]
fn months_of_many_hours(rt: HostRuntime) {
    assert_eq!(rt; month_rent(25000, &[]), Ok(0));
    // 19 / 20 twice: each hour is divided by itself
    assert_eq!(rt; month_rent(10, &[hour(1, 0, 1); 2]), Ok(0));
    assert_eq!(rt;
        month_rent(1, &[hour(0, 0, 0), hour(0, -1, 0)]),
        Err(RentRefusal::HourOutOfRange)
    );
    assert_eq!(rt;
        month_rent(1, &[hour(1000000, 0, 100000); 744]),
        Ok(7068000000)
    );
    assert_eq!(rt;
        month_rent(1, &[hour(0, -1, 0); 745]),
        Err(RentRefusal::TooManyHours)
    );
    assert_eq!(rt;
        month_rent(0, &[hour(0, -1, 0); 745]),
        Err(RentRefusal::PeakOutOfRange)
    );
}

#[test]
fn counts_and_numbers(rt: HostRuntime) {
    let hours = [
        hour(5, 5, 1),
        hour(6, 5, 1),
        hour(4, 5, 1),
        hour(i64::MAX, i64::MIN, 0),
    ];
    assert_eq!(rt; hours_above_strike(&hours), 2);
    let numbers = [
        RentRefusal::PeakOutOfRange.number(),
        RentRefusal::TooManyHours.number(),
        RentRefusal::HourOutOfRange.number(),
    ];
    assert_eq!(rt; numbers, [2, 28, 29]);
}
