//! Values that are split and joined, worked out by hand.
use crate::status::Status;
use crate::tests::run;
use std::test::Fail;

/// By hand: words, input, status, output.
const VALUES: [(&str, &[u8], Status, &[u8]); 9] = [
    (
        "split 1 2",
        b"\x01\x02",
        Status::Done,
        b"value 2\npart 0 03\npart 1 05\npart 2 07\n",
    ),
    (
        "split 1 2",
        b"\x00\x80",
        Status::Done,
        b"value 2\npart 0 80\npart 1 1d\npart 2 9d\n",
    ),
    (
        "split 1 2",
        b"",
        Status::Done,
        b"value 0\npart 0 -\npart 1 -\npart 2 -\n",
    ),
    (
        "split 1 1",
        b"ab",
        Status::Done,
        b"value 2\npart 0 6162\npart 1 6162\npart 2 6162\n",
    ),
    (
        "join 1 2",
        b"value 0\npart 0 -\npart 1 -\npart 2 -\n",
        Status::Done,
        b"",
    ),
    (
        "join 1 2",
        b"value 2\npart 1 1d\npart 2 9d\n",
        Status::Done,
        b"\x00\x80",
    ),
    (
        "join 1 2",
        b"value 2\npart 1 1d\n",
        Status::TooFew { index: 1 },
        b"",
    ),
    (
        "join 1 2",
        b"value 2\npart 1 1D\n",
        Status::BadSchedule { line: 2 },
        b"",
    ),
    ("join 1 2", b"", Status::BadSchedule { line: 1 }, b""),
];

#[test]
fn a_value_is_split_and_joined(rt: HostRuntime) -> Result<(), Fail> {
    for (line, input, want_status, want) in VALUES {
        let (status, text) = run(rt.alloc(), line, input, 4096)?;
        assert_eq!(rt; status, want_status, "at {line} of {input:?}");
        assert_eq!(rt; text.as_slice(), want, "at {line} of {input:?}");
    }
    Ok(())
}
