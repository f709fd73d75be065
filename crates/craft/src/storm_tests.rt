//! Storms by the top call.
use crate::status::Status;
use crate::tests::run;
use std::test::Fail;

#[test]
fn a_storm_of_one_event_is_counted(rt: HostRuntime) -> Result<(), Fail> {
    // the event is `tick 0 7`
    let want = b"events 1\nframes 0\nreplies 0\nleaders 0\ncommit 0\ncuts 0\n";
    let (status, text) = run(rt.alloc(), "storm 1 1 0 1", b"left\n", 4096)?;
    assert_eq!(rt; status, Status::Done);
    assert_eq!(rt; text.as_slice(), want.as_slice());
    Ok(())
}

#[test]
fn the_same_words_give_the_same_storm(rt: HostRuntime) -> Result<(), Fail> {
    let (status, text) = run(rt.alloc(), "storm 2 3 7 20000", b"", 4096)?;
    assert_eq!(rt; status, Status::Done);
    assert!(rt; text.starts_with(b"events 20000\n"));
    let (status, again) = run(rt.alloc(), "storm 2 3 7 20000", b"", 1)?;
    assert_eq!(rt; status, Status::Done);
    assert_eq!(rt; text.as_slice(), again.as_slice());
    Ok(())
}

#[test]
fn words_of_no_storm_are_refused(rt: HostRuntime) -> Result<(), Fail> {
    for line in [
        "storm 1 1 0 0",
        "storm 1 1 0 100001",
        "storm 1 1 18446744073709551616 1",
        "storm 1 1 00 1",
        "storm 1 1 0",
        "storm 1 1 0 1 1",
        "storm 8 1 0 1",
    ] {
        let (status, text) = run(rt.alloc(), line, b"", 4096)?;
        assert_eq!(rt; status, Status::BadWords, "at {line}");
        assert_eq!(rt; text.len(), 0, "at {line}");
    }
    Ok(())
}
