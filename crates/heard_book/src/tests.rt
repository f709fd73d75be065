//! What the contracts don't say: that calls succeed, on numbers worked out by hand.
use super::*;
use craft_base::{Held, Known, MemberId, Shape};
use std::test::Fail;

#[test]
fn what_was_heard_tells_of_the_others(rt: HostRuntime) -> Result<(), Fail> {
    let shape = Shape::new(1, 2)?;
    let one = MemberId::new(&shape, 1).ok_or("member 1")?;
    let two = MemberId::new(&shape, 2).ok_or("member 2")?;
    let mut heard = Heard::new(rt.alloc(), &shape, MemberId::default())?;
    heard.vote(one, true);
    heard.vote(one, true);
    heard.vote(one, false);
    heard.vote(two, false);
    assert_eq!(rt; heard.votes(), 2);
    heard.lead(4, 1);
    assert_eq!(rt; (heard.next_of(two), heard.settled()), (4, 1));
    for next in [3, 2, 3] {
        heard.refused(two, next, 3);
    }
    // a log of no entries goes on from 1 alone
    heard.refused(one, 2, 0);
    assert_eq!(rt; (heard.next_of(one), heard.next_of(two)), (4, 2));
    assert_eq!(rt; heard.fresh_count(), 2);
    heard.beat();
    let mut heard = heard.matched(one, 1, 2, 2, 3)?;
    heard.beat();
    // it says more than the log has
    let mut heard = heard.matched(one, 2, 2, 3, 3)?;
    heard.refused(one, 1, 3);
    assert_eq!(rt; (heard.match_of(one), heard.next_of(one)), (3, 4));
    assert_eq!(rt; (heard.match_of(two), heard.next_of(two)), (0, 2));
    assert_eq!(rt; heard.fresh_count(), 1);
    heard.settle(0);
    heard.answered(two);
    assert_eq!(rt; (heard.fresh_count(), heard.settled()), (2, 1));
    Ok(())
}

#[test]
fn forms_are_told_above_the_settled_index(rt: HostRuntime) -> Result<(), Fail> {
    let shape = Shape::new(1, 2)?;
    let one = MemberId::new(&shape, 1).ok_or("member 1")?;
    let two = MemberId::new(&shape, 2).ok_or("member 2")?;
    let heard = Heard::new(rt.alloc(), &shape, MemberId::default())?;
    // the entries 2 and 4 whole, then 4 of the other
    let heard = heard.matched(one, 1, 3, 5, 5)?;
    let mut heard = heard.matched(two, 3, 1, 1, 5)?;
    heard.settle(2);
    for (member, index, want) in [
        (one, 3, Held::Part),
        (one, 4, Held::Whole),
        (one, 5, Held::Nothing),
        (two, 3, Held::Part),
        (two, 4, Held::Whole),
    ] {
        assert_eq!(rt; heard.form_at(member, index), want, "at {index}");
    }
    Ok(())
}
