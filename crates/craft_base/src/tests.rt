ghost use Rattle.std.specs.Prelude.{◌<◌};

use super::heard_list::{HeardList, Item, What};
use super::*;
use std::test::Fail;

#[test]
fn a_shape_has_its_quorums(rt: HostRuntime) -> Result<(), Fail> {
    // f, k, members, majority, coded quorum
    for (f, k, members, majority, coded) in [(1, 1, 3, 2, 2), (2, 3, 5, 3, 5), (7, 8, 15, 8, 15)] {
        let shape = Shape::new(f, k)?;
        assert_eq!(rt; (shape.faults(), shape.need()), (f, k));
        assert_eq!(rt; shape.members(), members);
        assert_eq!(rt; shape.majority(), majority);
        assert_eq!(rt; shape.coded_quorum(), coded);
    }
    Ok(())
}

#[test]
fn other_numbers_make_no_shape(rt: HostRuntime) {
    for (f, k) in [(0, 1), (8, 1), (255, 0)] {
        assert_eq!(rt; Shape::new(f, k), Err(ShapeError::BadFaults), "at {f} {k}");
    }
    for (f, k) in [(1, 0), (1, 3), (7, 9)] {
        assert_eq!(rt; Shape::new(f, k), Err(ShapeError::BadNeed), "at {f} {k}");
    }
}

#[test]
fn a_shape_has_the_members_below_its_size(rt: HostRuntime) -> Result<(), Fail> {
    let shape = Shape::new(1, 2)?;
    assert_eq!(rt; MemberId::new(&shape, 2).ok_or("member 2")?.number(), 2);
    assert_eq!(rt; MemberId::new(&shape, 3), None);
    assert_eq!(rt; MemberId::default().number(), 0);
    let mut voters = MemberSet::new();
    voters.push(MemberId::default());
    assert_eq!(rt; voters.len(), 1);
    Ok(())
}

#[test]
fn parts_are_as_short_as_they_can_be(rt: HostRuntime) {
    // value length, k, part length
    for (vlen, k, want) in [
        (0, 3, 0),
        (1, 3, 1),
        (3, 3, 1),
        (4, 3, 2),
        (65, 2, 33),
        (32768, 8, 4096),
    ] {
        assert_eq!(rt; part_len(vlen, k), want, "at {vlen} {k}");
    }
}

#[test]
fn a_blob_is_its_bytes(rt: HostRuntime) -> Result<(), Fail> {
    let blob = Blob::copy_of(rt.alloc(), &[1, 2])?;
    assert_eq!(rt; blob.as_bytes(), [1, 2].as_slice());
    let mut bytes = Vec::new(rt.alloc());
    bytes.push(3)?;
    assert_eq!(rt; Blob::of(bytes).as_bytes(), [3].as_slice());
    Ok(())
}

/// What is known of a member by way of the trait: its match and next index, and its forms at 2, 3 and 4.
fn known_of<K: Known>(known: &K, member: MemberId) -> (u64, u64, [Held; 3])
    requires { K.settled_to known.now < 2 }
{
    let forms = [
        known.form_at(member, 2),
        known.form_at(member, 3),
        known.form_at(member, 4),
    ];
    (known.match_of(member), known.next_of(member), forms)
}

#[test]
fn what_was_heard_tells_of_the_others(rt: HostRuntime) -> Result<(), Fail> {
    let shape = Shape::new(1, 2)?;
    let one = MemberId::new(&shape, 1).ok_or("member 1")?;
    let two = MemberId::new(&shape, 2).ok_or("member 2")?;
    let mut items = Vec::new(rt.alloc());
    // the latest first: a reply that says too much, two beats, and what came before
    for what in [
        What::Matched(one, 3, 2, 2, 3),
        What::Beat,
        What::Matched(one, 3, 1, 2, 2),
        What::Beat,
        What::Refused(two, 3, 2),
        What::Refused(two, 3, 3),
    ] {
        items.push(Item::new(what))?;
    }
    let known = HeardList {
        shape,
        items,
        first: 4,
    };
    assert_eq!(rt;
        known_of(&known, one),
        (3, 4, [Held::Part, Held::Whole, Held::Nothing])
    );
    assert_eq!(rt;
        known_of(&known, two),
        (0, 2, [Held::Nothing, Held::Nothing, Held::Nothing])
    );
    assert_eq!(rt; (known.fresh_count(), known.settled()), (1, 0));
    Ok(())
}
