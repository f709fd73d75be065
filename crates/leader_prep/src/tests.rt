//! What the contracts don't say: that calls succeed, on logs and answers worked out by hand.
use crate::test_answers::Held::{Noop, Part, Whole};
use crate::test_answers::{Shown, begun, bytes_of, log_of, taken, text_of};
use craft_base::{MemberId, Shape};
use std::test::Fail;

// Member 1 of three holds the part 1d at index 2, the cursor; one other member's page decides it, or doesn't reach it.
#[test]
fn one_answer_decides(rt: HostRuntime) -> Result<(), Fail> {
    let alloc = rt.alloc();
    let bytes = bytes_of(alloc, &[Noop(1), Part(1, 1, 0x1d)])?;
    let log = log_of(alloc, &bytes)?;
    let noop = Noop(1);
    let part = Part(1, 1, 0x9d);
    let value = "[(2, Blob { bytes: [0, 128] })] None true";
    let cut = "[] Some(2) true";
    let nothing = "[] None false";
    let rows = [
        // two parts; nothing there; a whole value
        (2, 2, 1, [part, noop], value),
        (2, 1, 0, [noop, noop], cut),
        (2, 2, 1, [Whole(1, 1, [0, 0x80]), noop], value),
        // a part of another term, and one of another request
        (2, 2, 1, [Part(2, 1, 0x9d), noop], cut),
        (2, 2, 1, [Part(1, 2, 0x9d), noop], cut),
        // from before the cursor, and from past it
        (1, 2, 2, [noop, part], value),
        (3, 3, 1, [part, noop], nothing),
        (3, 1, 0, [noop, noop], nothing),
        // it ends before the cursor, where the log goes on, and where it ends
        (1, 2, 1, [noop, noop], nothing),
        (1, 1, 1, [noop, noop], cut),
    ];
    for (start, last, count, entries, want) in rows {
        let prep = begun(alloc, 1, 1, &log)?;
        let shown = Shown {
            from: 2,
            start,
            last,
        };
        let (_, made) = taken(&rt, alloc, prep, &log, shown, &entries[..count])?;
        let text = format!(in alloc; "{:?} {:?} {}", made.wholes, made.cut, made.done)?;
        assert_eq!(rt; text.as_str(), want, "of {count} from {start}");
    }
    Ok(())
}

// Of five members three have to show what they hold. The later slot of member 1 counts; what an earlier page covered stays so.
#[test]
fn three_of_five_decide(rt: HostRuntime) -> Result<(), Fail> {
    let alloc = rt.alloc();
    let bytes = bytes_of(alloc, &[Noop(1), Part(1, 1, 0x80)])?;
    let log = log_of(alloc, &bytes)?;
    let prep = begun(alloc, 2, 0, &log)?;
    let one = Shown {
        from: 1,
        start: 2,
        last: 2,
    };
    let waits = "[] None false Some(2)";
    let (prep, made) = taken(&rt, alloc, prep, &log, one, &[Part(2, 1, 0xee)])?;
    assert_eq!(rt; text_of(alloc, &prep, &made)?.as_str(), waits);
    let (prep, made) = taken(&rt, alloc, prep, &log, one, &[Part(1, 1, 0x1d)])?;
    assert_eq!(rt; text_of(alloc, &prep, &made)?.as_str(), waits);
    let shape = Shape::new(2, 2)?;
    for (number, want) in [(0, true), (1, true), (2, false)] {
        let member = MemberId::new(&shape, number).ok_or("no such member")?;
        assert_eq!(rt; prep.covers(member), want, "of {number}");
    }
    let two = Shown {
        from: 2,
        start: 2,
        last: 1,
    };
    let (prep, made) = taken(&rt, alloc, prep, &log, two, &[])?;
    assert_eq!(rt;
        text_of(alloc, &prep, &made)?.as_str(),
        "[(2, Blob { bytes: [0, 128] })] None true None"
    );
    Ok(())
}

// Member 4 holds ff. Two other parts give 00 80, and they are those of the lowest members; a whole value comes before them.
#[test]
fn the_lowest_members_count(rt: HostRuntime) -> Result<(), Fail> {
    let alloc = rt.alloc();
    let bytes = bytes_of(alloc, &[Noop(1), Part(1, 1, 0xff)])?;
    let log = log_of(alloc, &bytes)?;
    let zero = Shown {
        from: 0,
        start: 2,
        last: 2,
    };
    let three = Shown {
        from: 3,
        start: 2,
        last: 2,
    };
    let rows = [
        (
            Part(1, 1, 0x3a),
            "[(2, Blob { bytes: [0, 128] })] None true None",
        ),
        (
            Whole(1, 1, [0xaa, 0xbb]),
            "[(2, Blob { bytes: [170, 187] })] None true None",
        ),
    ];
    for (last, want) in rows {
        let prep = begun(alloc, 2, 4, &log)?;
        let (prep, _) = taken(&rt, alloc, prep, &log, three, &[last])?;
        let (prep, made) = taken(&rt, alloc, prep, &log, zero, &[Part(1, 1, 0x80)])?;
        assert_eq!(rt; text_of(alloc, &prep, &made)?.as_str(), want);
    }
    Ok(())
}

// A page shows eight entries; the ninth part waits for the next one, whose log has the values of the eight.
#[test]
fn a_page_of_eight_decides_eight(rt: HostRuntime) -> Result<(), Fail> {
    let alloc = rt.alloc();
    let own = |seq| Part(1, seq, 0x1d);
    let bytes = bytes_of(
        alloc,
        &[
            Noop(1),
            own(1),
            own(2),
            own(3),
            own(4),
            own(5),
            own(6),
            own(7),
            own(8),
            own(9),
        ],
    )?;
    let log = log_of(alloc, &bytes)?;
    let prep = begun(alloc, 1, 1, &log)?;
    let shown = |seq| Part(1, seq, 0x9d);
    let page = [
        shown(1),
        shown(2),
        shown(3),
        shown(4),
        shown(5),
        shown(6),
        shown(7),
        shown(8),
    ];
    let from_two = Shown {
        from: 2,
        start: 2,
        last: 10,
    };
    let (prep, made) = taken(&rt, alloc, prep, &log, from_two, &page)?;
    assert_eq!(rt;
        (made.wholes.len(), made.cut, made.done, prep.cursor()),
        (8, None, false, Some(10))
    );
    for (place, (index, value)) in made.wholes.iter().enumerate() {
        assert_eq!(rt;
            (*index, value.as_bytes()),
            (place as u64 + 2, &[0, 0x80][..])
        );
    }
    let whole = |seq| Whole(1, seq, [0, 0x80]);
    let bytes = bytes_of(
        alloc,
        &[
            Noop(1),
            whole(1),
            whole(2),
            whole(3),
            whole(4),
            whole(5),
            whole(6),
            whole(7),
            whole(8),
            own(9),
        ],
    )?;
    let log = log_of(alloc, &bytes)?;
    let from_ten = Shown {
        from: 2,
        start: 10,
        last: 10,
    };
    let (prep, made) = taken(&rt, alloc, prep, &log, from_ten, &[shown(9)])?;
    assert_eq!(rt;
        text_of(alloc, &prep, &made)?.as_str(),
        "[(10, Blob { bytes: [0, 128] })] None true None"
    );
    Ok(())
}

// The first part has its value; the other log ends before the second.
#[test]
fn a_value_and_then_a_cut(rt: HostRuntime) -> Result<(), Fail> {
    let alloc = rt.alloc();
    let bytes = bytes_of(alloc, &[Noop(1), Part(1, 1, 0x1d), Part(1, 2, 0x1d)])?;
    let log = log_of(alloc, &bytes)?;
    let prep = begun(alloc, 1, 1, &log)?;
    let two = Shown {
        from: 2,
        start: 2,
        last: 2,
    };
    let (prep, made) = taken(&rt, alloc, prep, &log, two, &[Part(1, 1, 0x9d)])?;
    assert_eq!(rt;
        text_of(alloc, &prep, &made)?.as_str(),
        "[(2, Blob { bytes: [0, 128] })] Some(3) true None"
    );
    Ok(())
}
