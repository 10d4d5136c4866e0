use rent_input::{Failure, read_month, report_on};
use std::alloc::Global;
use std::process::Abort;
use std::test::Fail;

// What the program says of an input.
fn said(heap: Global, text: &[u8]) -> Result<String, Fail> {
    match read_month(heap, text) {
        Ok(month) => match report_on(&month) {
            Ok(report) => Ok(format!(in heap; "{report}")?),
            Err(refusal) => {
                let number = refusal.number();
                Ok(format!(in heap; "refused {number}")?)
            }
        },
        Err(Failure::Unreadable(fault)) => Ok(format!(in heap; "{fault}")?),
        Err(Failure::NoMemory) => Err(Fail::new("out of memory")),
    }
}

fn says(rt: &impl Abort, heap: Global, inputs: &[(&[u8], &str)]) -> Result<(), Fail> {
    for (text, answer) in inputs {
        let answered = said(heap, text)?;
        assert_eq!(rt; answered.as_str(), *answer);
    }
    Ok(())
}

#[test]
fn inputs(rt: HostRuntime) -> Result<(), Fail> {
    let inputs: [(&[u8], &str); 21] = [
        (
            b"25000\n30000 20000 20000\n20000 20000 20000\n",
            "hours 2\nabove 1\nrent 76000",
        ),
        (b"25000\n-30000 20000 20000", "hours 1\nabove 0\nrent 0"),
        (b"25000\n", "hours 0\nabove 0\nrent 0"),
        (b"25000", "hours 0\nabove 0\nrent 0"),
        (b"0\n", "refused 2"),
        (b"99999999999\n", "refused 2"),
        (b"1\n0 0 0\n0 -1 0\n", "refused 29"),
        (b"1\n99999999999 0 0\n", "refused 29"),
        (
            b"25000\nhot 20000 20000\n",
            "line 2: field 1 is not a number of at most eleven digits",
        ),
        (
            b"25000\n1 2 3\n1 100000000000 3\n",
            "line 3: field 2 is not a number of at most eleven digits",
        ),
        (
            b"25000\n1 2 \xff\xfe\n",
            "line 2: field 3 is not a number of at most eleven digits",
        ),
        (
            b"25000\r\n1 2 3\n",
            "line 1: field 1 is not a number of at most eleven digits",
        ),
        (
            b"-25000\n",
            "line 1: field 1 is not a number of at most eleven digits",
        ),
        (b"", "line 1: field 1 is missing"),
        (b"\n25000\n", "line 1: field 1 is missing"),
        (b"25000\n1 2\n", "line 2: field 3 is missing"),
        (b"25000\n1  3\n", "line 2: field 2 is missing"),
        (b"25000\n1 2 3 4\n", "line 2: field 4 is one too many"),
        (b"25000\n1 2 3 \n", "line 2: field 4 is one too many"),
        (b"25000 1\n", "line 1: field 2 is one too many"),
        (b"25000\n1 2 3\n\n", "line 3: field 1 is missing"),
    ];
    says(&rt, rt.alloc(), &inputs)
}
