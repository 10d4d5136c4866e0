use text::{cut_line, first_field, next_field, number, signed};

#[test]
fn number_fields(rt: HostRuntime) {
    let fields: [(&[u8], Option<u64>, Option<i64>); 22] = [
        (b"0", Some(0), Some(0)),
        (b"26000", Some(26000), Some(26000)),
        (b"99999999999", Some(99999999999), Some(99999999999)),
        (b"-1", None, Some(-1)),
        (b"-99999999999", None, Some(-99999999999)),
        (b"100000000000", None, None),
        (b"-100000000000", None, None),
        (b"", None, None),
        (b"-", None, None),
        (b"--1", None, None),
        (b"-0", None, None),
        (b"00", None, None),
        (b"01", None, None),
        (b"-01", None, None),
        (b"+1", None, None),
        (b"1 ", None, None),
        (b"1e3", None, None),
        (b"/", None, None),
        (b":", None, None),
        (b"\x00", None, None),
        (b"\xff1", None, None),
        (b"1\r", None, None),
    ];
    for (field, plain, with_sign) in fields {
        assert_eq!(rt; number(field), plain);
        assert_eq!(rt; signed(field), with_sign);
    }
}

#[test]
fn lines_and_fields(rt: HostRuntime) {
    let (line, rest) = cut_line(b"1 2\n3");
    let (first, left) = first_field(line);
    let (second, left) = next_field(left);
    let (missing, left) = next_field(left);
    assert_eq!(rt; first, b"1".as_slice());
    assert_eq!(rt; second, b"2".as_slice());
    assert_eq!(rt; missing.len() + left.len(), 0);
    let (last, none) = cut_line(rest);
    assert_eq!(rt; last, b"3".as_slice());
    assert_eq!(rt; none.len(), 0);
}
