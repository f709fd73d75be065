use super::*;
use craft_edge::MemSource;
use std::test::Fail;

#[test]
fn lines_come_one_after_the_other(rt: HostRuntime) -> Result<(), Fail> {
    let alloc = rt.alloc();
    let mut src = MemSource::new(b"ab\n\nc".to_vec(alloc)?, 2, Vec::new(alloc));
    let mut line = Vec::new(alloc);
    // how the line ends, and its bytes
    for (end, text) in [
        (LineEnd::LineFeed, b"ab".as_slice()),
        (LineEnd::LineFeed, b""),
        (LineEnd::Broken, b"c"),
        (LineEnd::End, b""),
    ] {
        assert_eq!(rt; read_line(&mut src, &mut line), Ok(end));
        assert_eq!(rt; line.as_slice(), text);
    }
    Ok(())
}

#[test]
fn a_source_that_fails_is_told(rt: HostRuntime) -> Result<(), Fail> {
    let alloc = rt.alloc();
    let mut src = MemSource::new(b"ab\n".to_vec(alloc)?, 1, vec![in alloc; 2]?);
    let mut line = Vec::new(alloc);
    assert_eq!(rt;
        read_line(&mut src, &mut line),
        Err(InputFault::SourceFault)
    );
    Ok(())
}

#[test]
fn a_number_is_decimal(rt: HostRuntime) {
    let table: [(&[u8], Option<u64>); 11] = [
        (b"0", Some(0)),
        (b"7", Some(7)),
        (b"10", Some(10)),
        (b"18446744073709551615", Some(u64::MAX)),
        (b"18446744073709551616", None),
        (b"99999999999999999999999", None),
        (b"", None),
        (b"00", None),
        (b"07", None),
        (b"+7", None),
        (b"7 ", None),
    ];
    for (word, want) in table {
        assert_eq!(rt; number(word), want, "at {word:?}");
    }
}

#[test]
fn words_stand_between_blanks(rt: HostRuntime) -> Result<(), Fail> {
    let words = words(rt.alloc(), b"a  bc ")?;
    let want: [&[u8]; 4] = [b"a", b"", b"bc", b""];
    assert_eq!(rt; words.as_slice(), want.as_slice());
    Ok(())
}

#[test]
fn bytes_are_a_word(rt: HostRuntime) -> Result<(), Fail> {
    let table: [(&[u8], &str); 2] = [(&[0x00, 0x80, 0xaf], "0080af"), (b"", "-")];
    for (bytes, want) in table {
        let word = digits_of(rt.alloc(), bytes)?;
        assert_eq!(rt; word.as_str(), want);
    }
    Ok(())
}

#[test]
fn a_word_is_bytes(rt: HostRuntime) -> Result<(), Fail> {
    // At most two bytes are read.
    let table: [(&[u8], Option<&[u8]>); 9] = [
        (b"-", Some(b"")),
        (b"80", Some(&[0x80])),
        (b"00af", Some(&[0x00, 0xaf])),
        (b"0080af", None),
        (b"", None),
        (b"8", None),
        (b"008", None),
        (b"AF", None),
        (b"0g", None),
    ];
    for (word, want) in table {
        let found = bytes_of(rt.alloc(), 2, word)?;
        let bytes = found.as_ref().map(|found| found.as_bytes());
        assert_eq!(rt; bytes, want, "at {word:?}");
    }
    Ok(())
}
