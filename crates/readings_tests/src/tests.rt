use crate::asked::{answers, asks, covers, hourly, published, silent};

#[test]
fn hourly_readings(rt: HostRuntime) {
    // each hour is capped by itself
    answers(
        &rt,
        &hourly(&[20000, 0], 2),
        &[asks(1, 10000, 2, (10000, 20000), 20000)],
    );
    // in order of resource, then hour
    answers(
        &rt,
        &hourly(&[1, 2, 3, 40, 50, 60], 3),
        &[asks(1, 2, 3, (5, 6), 6), asks(2, 55, 3, (145, 165), 150)],
    );
    // the largest
    answers(
        &rt,
        &hourly(&[200000; 24], 24),
        &[
            asks(1, 200000, 24, (4800000, 4800000), 4800000),
            asks(1, 1, 24, (24, 24), 4800000),
        ],
    );
    // up to the first reading that is too large
    answers(
        &rt,
        &hourly(&[3, 4, 200001, 6, 7, 8], 2),
        &[asks(1, 9, 2, (7, 18), 7), silent(2, 9, 2), silent(3, 9, 2)],
    );
}

#[test]
fn hourly_readings_outside_the_ranges(rt: HostRuntime) {
    let questions = [
        asks(25, 5, 2, (10, 10), 14),
        silent(26, 5, 2),
        silent(usize::MAX, 5, 2),
        silent(0, 5, 2),
        silent(1, 0, 2),
        silent(1, 200001, 2),
        silent(1, u64::MAX, 2),
        silent(1, 5, 3),
    ];
    answers(&rt, &hourly(&[7; 50], 2), &questions);
    answers(&rt, &hourly(&[7; 50], 25), &[silent(1, 5, 25)]);
    answers(&rt, &hourly(&[7; 50], 0), &[silent(1, 5, 0)]);
}

#[test]
fn published_scores(rt: HostRuntime) {
    let questions = [
        asks(1, 10000, 5, (5000, 10000), 25000),
        asks(2, 10000, 5, (10000, 10000), 50000),
        asks(2, 200000, 24, (10000, 10000), 4800000),
        asks(3, 10000, 5, (0, 10000), 0),
        asks(4, 7, 1, (3333, 10000), 2),
        asks(4, 1, 2, (3333, 10000), 0),
        silent(5, 5, 2),
        silent(6, 5, 2),
        silent(7, 5, 2),
        silent(0, 5, 2),
        silent(1, 0, 2),
        silent(1, 200001, 2),
        silent(1, 5, 0),
        silent(1, 5, 25),
    ];
    answers(
        &rt,
        &published(&[5000, 10000, 0, 3333, 10001, 5]),
        &questions,
    );
}

#[test]
fn covers_at_its_limits(rt: HostRuntime) {
    covers(
        &rt,
        &hourly(&[200000, 200000, 200001, 0], 1),
        &[
            (0, 1, true),
            (2, 1, true),
            (3, 1, false),
            (4, 1, false),
            (2, 2, false),
        ],
    );
    covers(
        &rt,
        &hourly(&[1, 2, 3, 4, 5], 2),
        &[
            (2, 2, true),
            (3, 2, false),
            (usize::MAX, 2, false),
            (2, 1, false),
        ],
    );
    covers(
        &rt,
        &hourly(&[], 0),
        &[(0, 0, true), (usize::MAX, 0, true), (0, 1, false)],
    );
    covers(
        &rt,
        &published(&[10000, 10000, 10001, 0]),
        &[
            (0, 1, true),
            (2, 99, true),
            (3, 1, false),
            (4, 1, false),
            (5, 1, false),
            (usize::MAX, 1, false),
        ],
    );
}
