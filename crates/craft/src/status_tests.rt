//! The code and the text of each status.
use crate::paths::{paths_of, place_of};
use crate::status::{Status, code_of, text_of};
use crate::tests::words_of;
use std::test::Fail;
use synced_log::Owner;

#[test]
fn each_status_has_its_code_and_its_text(rt: HostRuntime) -> Result<(), Fail> {
    let (found, wanted) = (Owner { f: 1, k: 2, me: 0 }, Owner { f: 1, k: 1, me: 0 });
    let table: [(Status, u8, &[u8]); 12] = [
        (Status::Done, 0, b""),
        (
            Status::BadJournal {
                disk: 0,
                offset: 32,
            },
            4,
            b"craft: bad journal 0 at byte 32\n",
        ),
        (
            Status::WrongOwner { found, wanted },
            5,
            b"craft: wrong owner 1 2 0, wanted 1 1 0\n",
        ),
        (Status::DiskFault, 8, b"craft: disk failed\n"),
        (Status::LinkFault, 9, b"craft: link failed\n"),
        (
            Status::NoAnswer { sent: 20 },
            10,
            b"craft: no answer after 20 sends\n",
        ),
        (Status::BadWords, 2, b"craft: bad words\n"),
        (
            Status::BadSchedule { line: 2 },
            3,
            b"craft: bad schedule at line 2\n",
        ),
        (Status::TooFew { index: 1 }, 11, b"craft: too few at 1\n"),
        (Status::SourceFault, 6, b"craft: source failed\n"),
        (Status::SinkFault, 7, b"craft: sink failed\n"),
        (Status::NoMemory, 12, b"craft: out of memory\n"),
    ];
    for (status, code, text) in table {
        assert_eq!(rt; code_of(&status), code);
        assert_eq!(rt; text_of(rt.alloc(), &status)?.as_bytes(), text);
    }
    let words = words_of(rt.alloc(), "replay 1 1")?;
    assert_eq!(rt; paths_of(rt.alloc(), &words)?.len(), 0);
    assert_eq!(rt; place_of(rt.alloc(), &words)?, None);
    Ok(())
}
