use super::*;
use craft_base::{MemberId, Shape};
use std::test::Fail;

#[test]
fn a_vote_goes_once_and_to_a_good_log(rt: HostRuntime) -> Result<(), Fail> {
    let from = MemberId::new(&Shape::new(1, 1)?, 2).ok_or("member 2")?;
    // vote, last, last term, their last, their last term, granted
    for (vote, last, last_term, their_last, their_last_term, want) in [
        (None, 0, 0, 0, 0, true),
        (Some(2), 0, 0, 0, 0, true),
        (Some(1), 0, 0, 0, 0, false),
        (None, 5, 3, 5, 3, true),
        (None, 5, 3, 4, 3, false),
        (None, 5, 3, 1, 4, true),
        (None, 1, 3, 9, 2, false),
    ] {
        let granted = vote_verdict(vote, last, last_term, from, their_last, their_last_term);
        assert_eq!(rt;
            granted,
            want,
            "at {vote:?} {last} {last_term} {their_last} {their_last_term}"
        );
    }
    Ok(())
}

#[test]
fn a_member_stands_when_it_is_due(rt: HostRuntime) {
    // quiet, word, term, due
    for (quiet, word, term, want) in [
        (3, 0, 0, true),
        (2, 0, 0, false),
        (9, 7, 0, false),
        (10, 15, 0, true),
        (100, 0, (1 << 62) - 1, true),
        (100, 0, 1 << 62, false),
    ] {
        assert_eq!(rt; starts(quiet, word, term), want, "at {quiet} {word} {term}");
    }
}
