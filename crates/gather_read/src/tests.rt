//! What the contracts don't say: that calls succeed, on entries and answers worked out by hand.
use crate::test_answers::Held::{Noop, Part, Whole};
use crate::test_answers::{Shown, taken, wanted};
use std::test::Fail;

const VALUE: &str = "[0, 128]";

const NONE: &str = "none";

// Member 1 of three wants index 2, of which it holds the part 1d; one page of member 2 gives the value, or doesn't.
#[test]
fn one_answer_gives(rt: HostRuntime) -> Result<(), Fail> {
    let alloc = rt.alloc();
    let part = Part(1, 1, 0x9d);
    let whole = Whole(1, 1, [0, 0x80]);
    let noop = Noop(1);
    let rows = [
        // a part, with what stands behind it; a whole value
        (2, 4, 3, [part, whole, noop], VALUE),
        (2, 2, 1, [whole, noop, noop], VALUE),
        // a part and a whole value of another term, and a part of another request
        (2, 2, 1, [Part(2, 1, 0x9d), noop, noop], NONE),
        (2, 2, 1, [Whole(2, 1, [0, 0x80]), noop, noop], NONE),
        (2, 2, 1, [Part(1, 2, 0x9d), noop, noop], NONE),
        // whole values at the indexes before and behind
        (1, 3, 3, [whole, noop, whole], NONE),
        // from before the index, and from past it
        (1, 2, 2, [noop, part, noop], VALUE),
        (3, 3, 1, [part, noop, noop], NONE),
        // a log that ends before it
        (2, 1, 0, [noop, noop, noop], NONE),
    ];
    for (start, last, count, entries, want) in rows {
        let gather = wanted(&rt, alloc, (1, 2), 1, Part(1, 1, 0x1d))?;
        assert_eq!(rt; gather.index(), 2);
        let shown = Shown {
            from: 2,
            start,
            last,
        };
        let (gather, text) = taken(alloc, gather, shown, &entries[..count])?;
        assert_eq!(rt; text.as_str(), want, "of {count} from {start}");
        assert_eq!(rt; gather.index(), 2);
    }
    Ok(())
}

// Member 4 of five holds ff. Two other parts give 00 80, and they are those of the lowest members; a whole value comes before them.
#[test]
fn the_lowest_members_count(rt: HostRuntime) -> Result<(), Fail> {
    let alloc = rt.alloc();
    let zero = Shown {
        from: 0,
        start: 2,
        last: 2,
    };
    let three = Shown {
        from: 3,
        start: 2,
        last: 2,
    };
    let rows = [
        (Part(1, 1, 0x3a), VALUE),
        (Whole(1, 1, [0xaa, 0xbb]), "[170, 187]"),
    ];
    for (last, want) in rows {
        let gather = wanted(&rt, alloc, (2, 2), 4, Part(1, 1, 0xff))?;
        let (gather, _) = taken(alloc, gather, three, &[last])?;
        let (_, text) = taken(alloc, gather, zero, &[Part(1, 1, 0x80)])?;
        assert_eq!(rt; text.as_str(), want);
    }
    Ok(())
}

// The later slot of member 2 takes the place of its earlier one; a page without a slot there leaves it.
#[test]
fn the_latest_slot_counts(rt: HostRuntime) -> Result<(), Fail> {
    let alloc = rt.alloc();
    let two = Shown {
        from: 2,
        start: 2,
        last: 2,
    };
    let short = Shown {
        from: 2,
        start: 2,
        last: 1,
    };
    let part = Part(1, 1, 0x9d);
    let other = Part(2, 1, 0xee);
    let gather = wanted(&rt, alloc, (1, 2), 1, Part(1, 1, 0x1d))?;
    let (gather, text) = taken(alloc, gather, two, &[other])?;
    assert_eq!(rt; text.as_str(), NONE);
    let (gather, text) = taken(alloc, gather, two, &[part])?;
    assert_eq!(rt; text.as_str(), VALUE);
    let (gather, text) = taken(alloc, gather, short, &[])?;
    assert_eq!(rt; text.as_str(), VALUE);
    let (_, text) = taken(alloc, gather, two, &[other])?;
    assert_eq!(rt; text.as_str(), NONE);
    Ok(())
}

// Of five members three parts are needed. One member counts once, however often it answers.
#[test]
fn as_many_as_are_needed(rt: HostRuntime) -> Result<(), Fail> {
    let alloc = rt.alloc();
    let gather = wanted(&rt, alloc, (2, 3), 1, Part(1, 1, 0x1d))?;
    let two = Shown {
        from: 2,
        start: 2,
        last: 2,
    };
    let three = Shown {
        from: 3,
        start: 1,
        last: 2,
    };
    let (gather, text) = taken(alloc, gather, two, &[Part(1, 1, 0x9d)])?;
    assert_eq!(rt; text.as_str(), NONE);
    let (gather, text) = taken(alloc, gather, two, &[Part(1, 1, 0x9d)])?;
    assert_eq!(rt; text.as_str(), NONE);
    let (_, text) = taken(alloc, gather, three, &[Noop(1), Part(1, 1, 0x3a)])?;
    assert_eq!(rt; text.as_str(), VALUE);
    Ok(())
}
