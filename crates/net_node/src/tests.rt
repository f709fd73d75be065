//! What the contracts don't say: that runs succeed, on lines and bytes worked out by hand.
ghost use Rattle.std.specs.Prelude.{◌≤◌, IfOk, vec_len};

use crate::{ServeEnd, serve};
use craft_base::{MemberId, Shape};
use craft_edge::{MemClock, MemLink, MemSink};
use crash_disk::MemDisk;
use node_shell::Shell;
use std::alloc::Global;
use std::process::Abort;
use std::test::Fail;
use test_text::bytes_of;

/// Where the three members listen.
const PLACES: [u64; 3] = [101, 102, 103];

/// The seed whose first words are 14180207640020093695, 6063221543909367921 and 11674071465944544456: by them a follower waits for
/// 10, 4 and 3 quiet ticks.
const SEED: u64 = 13;

/// What three ticks by these words print at member 0.
pub(crate) const ELECTION: &str =
    "1 done\n2 done\n3 done\nrole 0 candidate 1\nsend 1 0 1 vote 1 0 0\nsend 2 0 2 vote 1 0 0\n";

/// A request for the vote in term 1, with an empty log, behind its kind and its two ends.
const VOTE: &str = "0000000000000001 0000000000000000 0000000000000000";

/// What a run left.
#[derive(Drop)]
pub(crate) struct Outcome {
    pub(crate) end: ServeEnd,
    pub(crate) link: MemLink,
    pub(crate) out: MemSink,
}

/// Runs member 0 of three over a disk, where its journal can be opened.
pub(crate) fn ran_on(
    alloc: Global,
    turns: u64,
    disk: MemDisk,
    link: MemLink,
    clock: MemClock,
    out: MemSink,
) -> Result<Option<Outcome>, Fail> {
    let (mut link, mut clock, mut out) = (link, clock, out);
    let shape = Shape::new(1, 1)?;
    let Some(me) = MemberId::new(&shape, 0) else {
        return Err("no member".into());
    };
    let Ok(shell) = Shell::open(alloc, &shape, me, disk) else {
        return Ok(None);
    };
    let (end, _disk) = serve(
        alloc, &shape, me, SEED, turns, &PLACES, shell, &mut link, &mut clock, &mut out,
    );
    Ok(Some(Outcome { end, link, out }))
}

/// Runs it over a new disk that never fails.
pub(crate) fn ran(
    alloc: Global,
    turns: u64,
    link: MemLink,
    clock: MemClock,
    out: MemSink,
) -> Result<Outcome, Fail> {
    match ran_on(
        alloc,
        turns,
        MemDisk::new(Vec::new(alloc)),
        link,
        clock,
        out,
    )? {
        Some(ran) => Ok(ran),
        None => Err("not opened".into()),
    }
}

/// Clocks that show these readings, the first before the first turn.
pub(crate) fn rising(alloc: Global) -> Result<MemClock, Fail> {
    Ok(MemClock::new(vec![in alloc; 5, 6, 7, 8]?))
}

fn still(alloc: Global) -> Result<MemClock, Fail> {
    Ok(MemClock::new(vec![in alloc; 5]?))
}

/// The packet from that place whose bytes have these digits.
fn packet(alloc: Global, place: u64, digits: &str) -> Result<(u64, Vec<u8>), Fail>
    ensures { IfOk result (λ packet. vec_len packet.1 ≤ 65536) }
{
    let bytes = bytes_of(alloc, digits).map_err(|_| "no digits")?;
    if bytes.len() > 65_536 {
        return Err("too long".into());
    }
    Ok((place, bytes))
}

/// A link with one packet to come.
fn link_with(alloc: Global, place: u64, digits: &str) -> Result<MemLink, Fail> {
    let packets = vec![in alloc; packet(alloc, place, digits)?]?;
    Ok(MemLink::new(packets, Vec::new(alloc)))
}

/// A link with nothing to come, which fails at those calls.
pub(crate) fn quiet_link(alloc: Global, fail: Vec<u64>) -> MemLink {
    MemLink::new(Vec::new(alloc), fail)
}

/// What was sent as the n-th packet went to that place and has these digits.
fn sends(
    rt: &impl Abort,
    alloc: Global,
    link: &MemLink,
    n: u64,
    to: u64,
    digits: &str,
) -> Result<(), Fail> {
    let want = bytes_of(alloc, digits).map_err(|_| "no digits")?;
    let Some((place, bytes)) = link.sent(n) else {
        return Err("nothing was sent".into());
    };
    assert_eq!(rt; place, to);
    assert!(rt; bytes == want.as_slice(), "packet {n}");
    Ok(())
}

#[test]
fn three_ticks_start_an_election(rt: HostRuntime) -> Result<(), Fail> {
    let alloc = rt.alloc();
    let link = quiet_link(alloc, Vec::new(alloc));
    let out = MemSink::new(4096, Vec::new(alloc));
    let run = ran(alloc, 5, link, rising(alloc)?, out)?;
    assert_eq!(rt; run.end, ServeEnd::Turns);
    assert!(rt; run.out.taken() == ELECTION.as_bytes());
    let first = format!(in alloc; "4352 01 01 01 01 00 01 {VOTE}")?;
    let second = format!(in alloc; "4352 01 01 01 01 00 02 {VOTE}")?;
    sends(&rt, alloc, &run.link, 0, 102, &first)?;
    sends(&rt, alloc, &run.link, 1, 103, &second)?;
    assert_eq!(rt; run.link.sent(2), None);
    Ok(())
}

#[test]
fn a_vote_request_is_answered(rt: HostRuntime) -> Result<(), Fail> {
    let alloc = rt.alloc();
    let asks = format!(in alloc; "4352 01 01 01 01 02 00 {VOTE}")?;
    let link = link_with(alloc, 900, &asks)?;
    let out = MemSink::new(1, Vec::new(alloc));
    let run = ran(alloc, 2, link, still(alloc)?, out)?;
    assert_eq!(rt; run.end, ServeEnd::Turns);
    let want = "1 done\nrole 0 follower 1\nsend 1 0 2 voted 1 yes\n";
    assert!(rt; run.out.taken() == want.as_bytes());
    sends(
        &rt,
        alloc,
        &run.link,
        0,
        103,
        "4352 01 01 01 02 00 02 0000000000000001 01",
    )?;
    assert_eq!(rt; run.link.sent(1), None);
    Ok(())
}

#[test]
fn a_client_is_told_that_nobody_leads(rt: HostRuntime) -> Result<(), Fail> {
    let alloc = rt.alloc();
    let asks = "4352 01 01 01 07 ff 00 0000000000000009 0000000000000004 04 01 61";
    let link = link_with(alloc, 900, asks)?;
    let out = MemSink::new(4096, Vec::new(alloc));
    let run = ran(alloc, 2, link, still(alloc)?, out)?;
    assert_eq!(rt; run.end, ServeEnd::Turns);
    assert!(rt; run.out.taken() == "1 done\nreply 0 9 4 elsewhere -\n".as_bytes());
    let told = "4352 01 01 01 08 00 ff 0000000000000009 0000000000000004 07 ff";
    sends(&rt, alloc, &run.link, 0, 900, told)?;
    assert_eq!(rt; run.link.sent(1), None);
    Ok(())
}

/// No bytes, no frame, a frame of another shape, one of another version, one with a byte behind it, one for another member, and an
/// answer.
const STRANGE: [&str; 7] = [
    "",
    "00",
    "4352 01 02 01 01 02 00 0000000000000001 0000000000000000 0000000000000000",
    "4352 02 01 01 01 02 00 0000000000000001 0000000000000000 0000000000000000",
    "4352 01 01 01 01 02 00 0000000000000001 0000000000000000 0000000000000000 00",
    "4352 01 01 01 01 02 01 0000000000000001 0000000000000000 0000000000000000",
    "4352 01 01 01 08 00 ff 0000000000000009 0000000000000004 07 ff",
];

#[test]
fn what_is_not_for_it_is_dropped(rt: HostRuntime) -> Result<(), Fail> {
    let alloc = rt.alloc();
    for digits in STRANGE {
        let link = link_with(alloc, 900, digits)?;
        let out = MemSink::new(4096, Vec::new(alloc));
        let run = ran(alloc, 4, link, still(alloc)?, out)?;
        assert_eq!(rt; run.end, ServeEnd::Turns);
        assert!(rt; run.out.taken() == "1 drop\n".as_bytes(), "at {digits}");
        assert_eq!(rt; run.link.sent(0), None);
    }
    Ok(())
}

#[test]
fn a_turn_without_an_event_prints_nothing(rt: HostRuntime) -> Result<(), Fail> {
    let alloc = rt.alloc();
    let link = quiet_link(alloc, Vec::new(alloc));
    let out = MemSink::new(4096, Vec::new(alloc));
    let run = ran(alloc, 9, link, still(alloc)?, out)?;
    assert_eq!(rt; run.end, ServeEnd::Turns);
    assert_eq!(rt; run.out.taken().len(), 0);
    assert_eq!(rt; run.link.sent(0), None);
    Ok(())
}
