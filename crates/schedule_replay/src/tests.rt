//! What the contracts don't say: that replays succeed, on runs worked out by hand.
use crate::{ReplayEnd, Tally, replay};
use craft_base::Shape;
use craft_edge::{MemSink, MemSource};
use line_input::digits_of;
use std::alloc::Global;
use std::test::Fail;

/// A schedule of three members, in which member 0 asks for votes and the machine of member 1 stops while it takes the request; and
/// what is printed after its fourth event.
const STOPS: [(&str, &str); 4] = [
    (
        "stop 3 0 take 1\nup 1\nshow 1\n",
        "4 stop\n5 done\n6 done\nnode 1 0 - 0 0\n",
    ),
    (
        "stop 2 1 take 1\nup 1\nshow 1\n",
        "4 stop\n5 done\n6 done\nnode 1 0 - 0 0\n",
    ),
    (
        "stop 3 1 take 1\nshow 1\nup 1\nshow 1\n",
        "4 stop\n5 skip\n6 done\n7 done\nnode 1 1 0 0 0\n",
    ),
    (
        "stop 4 1 take 1\nup 1\nup 1\ndown 1\ntake 1\ntake 9\n",
        "4 stop\n5 done\n6 skip\n7 done\n8 skip\n9 none\n",
    ),
];

const ASKED: &str = "tick 0 0\ntick 0 0\ntick 0 0\n";

const ASKED_TEXT: &str =
    "1 done\n2 done\n3 done\nrole 0 candidate 1\nsend 1 0 1 vote 1 0 0\nsend 2 0 2 vote 1 0 0\n";

/// How the replay of a schedule in a cluster of three ends, its text, and what happened in numbers.
fn run(alloc: Global, schedule: &[u8]) -> Result<(ReplayEnd, Vec<u8>, Option<Tally>), Fail> {
    let shape = Shape::new(1, 1)?;
    let mut src = MemSource::new(schedule.to_vec(alloc)?, 4096, Vec::new(alloc));
    let mut out = MemSink::new(4096, Vec::new(alloc));
    let (end, world) = replay(alloc, &shape, &mut src, &mut out);
    let tally = match world {
        None => None,
        Some(world) => Some(world.tally()),
    };
    Ok((end, out.taken().to_vec(alloc)?, tally))
}

#[test]
fn a_stop_leaves_the_vote_or_none(rt: HostRuntime) -> Result<(), Fail> {
    let alloc = rt.alloc();
    for (stop, told) in STOPS {
        let schedule = format!(in alloc; "{ASKED}{stop}")?;
        let want = format!(in alloc; "{ASKED_TEXT}{told}")?;
        let (end, text, _) = run(alloc, schedule.as_bytes())?;
        assert_eq!(rt; end, ReplayEnd::End, "at {stop}");
        assert!(rt; text.as_slice() == want.as_bytes(), "at {stop}");
    }
    Ok(())
}

#[test]
fn what_happened_is_counted(rt: HostRuntime) -> Result<(), Fail> {
    let alloc = rt.alloc();
    let schedule = format!(in alloc; "{ASKED}take 1\ntake 3\nstop 1 0 tick 2 0\ntake")?;
    let (end, _, tally) = run(alloc, schedule.as_bytes())?;
    assert_eq!(rt; end, ReplayEnd::Bad { line: 7 });
    let want = Tally {
        events: 6,
        frames: 5,
        replies: 0,
        leaders: 1,
        commit: 0,
        cuts: 0,
    };
    assert_eq!(rt; tally, Some(want));
    Ok(())
}

/// What is printed behind the first three events as member 0 leads, takes a put with a long key and a long value, and then a get, and
/// member 1 takes what it is sent; but for the value at the end.
const PUT_AND_GOT: &str = "\
4 done
role 1 follower 1
send 3 1 0 voted 1 yes
5 done
role 0 leader 1
send 4 0 1 append 1 0 0 0 w
send 5 0 2 append 1 0 0 0 w
6 done
7 done
send 6 1 0 matched 1 0 1 01
8 done
commit 0 1
send 7 0 1 append 1 1 1 1 p
9 done
commit 1 1
send 8 1 0 matched 1 1 1 00
10 done
commit 0 2
reply 0 7 1 done 2
11 done
send 9 0 1 append 1 2 1 2 w
12 done
commit 1 2
send 10 1 0 matched 1 2 1 01
13 done
commit 0 3
reply 0 7 2 value 2 ";

/// So many bytes from 0 on, again and again, as digits.
fn digits(alloc: Global, count: u64) -> Result<String, Fail> {
    let mut bytes = Vec::new(alloc);
    for n in 0..count {
        bytes.push((n % 256) as u8)?;
    }
    Ok(digits_of(alloc, &bytes)?)
}

#[test]
fn the_longest_value_is_put_and_got(rt: HostRuntime) -> Result<(), Fail> {
    let alloc = rt.alloc();
    let key = digits(alloc, 255)?;
    let value = digits(alloc, 32_768)?;
    let puts = format!(in alloc;
        "take 1\ntake 3\ncall 0 7 1 put {key} {value}\ntake 4\ntake 6\ntake 7\ntake 8\n"
    )?;
    let gets = format!(in alloc; "call 0 7 2 get {key} -\ntake 9\ntake 10\n")?;
    let schedule = format!(in alloc; "{ASKED}{puts}{gets}")?;
    let want = format!(in alloc; "{ASKED_TEXT}{PUT_AND_GOT}{value}\n")?;
    let (end, text, _) = run(alloc, schedule.as_bytes())?;
    assert_eq!(rt; end, ReplayEnd::End);
    assert!(rt; text.as_slice() == want.as_bytes());
    Ok(())
}
