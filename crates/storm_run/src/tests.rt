//! That storms are run where there is memory. What is expected was worked out by hand.
ghost use Rattle.std.specs.Prelude.{◌≤◌};

use super::*;
use craft_base::Shape;
use craft_edge::MemSink;
use std::alloc::Global;
use std::test::Fail;

/// How a storm ends in a cluster of three over a sink whose listed writes fail, and what it wrote.
fn run(alloc: Global, seed: u64, count: u64, failing: Vec<u64>) -> Result<(StormEnd, Vec<u8>), Fail>
    requires { count ≤ 100_000 }
{
    let Ok(shape) = Shape::new(1, 1) else {
        return Err("no shape".into());
    };
    let mut out = MemSink::new(7, failing);
    let end = storm(alloc, &shape, seed, count, &mut out);
    Ok((end, out.taken().to_vec(alloc)?))
}

/// Seeds and counts, with what comes of them in a cluster of three that needs one part of a value.
const TALLIES: [(u64, u64, &str); 7] = [
    // `tick 0 7`
    (
        0,
        1,
        "events 1\nframes 0\nreplies 0\nleaders 0\ncommit 0\ncuts 0\n",
    ),
    // a client asks member 2, which tells it that it doesn't lead
    (
        6,
        1,
        "events 1\nframes 0\nreplies 1\nleaders 0\ncommit 0\ncuts 0\n",
    ),
    // three ticks at a member, the third with the word 0: it asks the two others for their votes
    (
        89,
        2,
        "events 2\nframes 0\nreplies 0\nleaders 0\ncommit 0\ncuts 0\n",
    ),
    (
        89,
        3,
        "events 3\nframes 2\nreplies 0\nleaders 0\ncommit 0\ncuts 0\n",
    ),
    // the same, and the machine stops in the third: what would have been sent is lost
    (
        8704,
        3,
        "events 3\nframes 0\nreplies 0\nleaders 0\ncommit 0\ncuts 0\n",
    ),
    // the same as with 89; then one other votes, and the member leads and sends its entry to both
    (
        2528,
        5,
        "events 5\nframes 5\nreplies 0\nleaders 1\ncommit 0\ncuts 0\n",
    ),
    // the same, and one other takes the entry and says so, by which it is committed
    (
        117_227,
        7,
        "events 7\nframes 6\nreplies 0\nleaders 1\ncommit 1\ncuts 0\n",
    ),
];

#[test]
fn storms_come_to_their_tallies(rt: HostRuntime) -> Result<(), Fail> {
    for (seed, count, text) in TALLIES {
        assert!(rt; count <= 100_000);
        let (end, wrote) = run(rt.alloc(), seed, count, Vec::new(rt.alloc()))?;
        assert_eq!(rt; end, StormEnd::End, "at seed {seed}");
        assert_eq!(rt; wrote.as_slice(), text.as_bytes(), "at seed {seed}");
    }
    Ok(())
}

#[test]
fn a_sink_that_fails_ends_a_storm(rt: HostRuntime) -> Result<(), Fail> {
    let (end, wrote) = run(rt.alloc(), 0, 1, vec![in rt.alloc(); 2]?)?;
    assert_eq!(rt; end, StormEnd::SinkFault);
    assert!(rt; b"events 1\nframes 0\n".starts_with(&wrote));
    Ok(())
}
