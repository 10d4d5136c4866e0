use crate::kinds::{Load, Recipient};
use sharing::{floor_div, share};
use std::process::Abort;

// A load that has a charge of an earlier sharing.
fn load(obligation: i32) -> Load {
    Load {
        obligation,
        charge: 7,
    }
}

#[test]
fn divisions_round_down(rt: HostRuntime) {
    let divisions = [
        (100, 3, 33),
        (-100, 3, -34),
        (-99, 3, -33),
        (-1, 200000, -1),
        (0, 5, 0),
        (i128::MIN, 1, i128::MIN),
        (i128::MAX, 1, i128::MAX),
        (7, 0, 0),
        (-7, 0, 0),
        (7, -2, 0),
        (i128::MIN, -1, 0),
    ];
    for (a, b, quotient) in divisions {
        assert_eq!(rt; floor_div(a, b), quotient);
    }
}

// An amount over three loads: their charges, and what is left.
fn shares(rt: &impl Abort, amount: i64, obligations: [i32; 3], charges: [i128; 3], left: i64) {
    let mut loads = obligations.map(load);
    assert_eq!(rt; share(amount, &mut loads), Some(left));
    assert_eq!(rt; loads.map(|load| load.charge), charges);
}

#[test]
fn three_loads(rt: HostRuntime) {
    shares(&rt, 100, [1, 1, 1], [33, 33, 33], 1);
    shares(&rt, -100, [1, 1, 1], [-34, -34, -34], 2);
    shares(&rt, 101, [3, -1, 0], [151, -51, 0], 1);
    // nothing to share by
    shares(&rt, 101, [2, -2, 0], [0, 0, 0], 101);
    shares(&rt, -101, [2, -3, 0], [0, 0, 0], -101);
    // the widest figures
    let wide = i128::from(i64::MIN) * i128::from(i32::MAX);
    shares(
        &rt,
        i64::MIN,
        [i32::MAX, -i32::MAX, 1],
        [wide, -wide, i128::from(i64::MIN)],
        0,
    );
}

#[test]
fn few_and_many(rt: HostRuntime) {
    let mut nobody: [Load; 0] = [];
    assert_eq!(rt; share(5, &mut nobody), Some(5));
    let mut most = [load(1); 64];
    assert_eq!(rt; share(129, &mut most), Some(1));
    assert_eq!(rt; [most[0].charge, most[63].charge], [2, 2]);
    let mut many = [load(1); 65];
    assert_eq!(rt; share(130, &mut many), None);
    assert_eq!(rt; [many[0].charge, many[64].charge], [7, 7]);
}

fn recipient(weight: u16) -> Recipient {
    Recipient {
        weight: u32::from(weight) * 100,
        credit: 7,
    }
}

#[test]
fn recipients_by_weight(rt: HostRuntime) {
    let mut recipients = [recipient(60000), recipient(0), recipient(20000)];
    assert_eq!(rt; share(27000001, &mut recipients), Some(1));
    assert_eq!(rt;
        recipients.map(|recipient| recipient.credit),
        [20250000, 0, 6750000]
    );
}
