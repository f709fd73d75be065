//! What the contracts don't say: that calls succeed, each trait once through its bound.
ghost use Rattle.std.specs.Prelude.{◌≡◌, IfOk, vec_len};

use crate::{
    Came, Clock, Failed, Link, MemClock, MemLink, MemSink, MemSource, Sink, Source, write_all,
};
use std::alloc::{AllocError, Global};
use std::test::Fail;

// A buffer with room for any packet.
const ROOM: usize = 65_536;

// This many zeros.
fn zeros(alloc: Global, len: usize) -> Result<Vec<u8>, AllocError>
    ensures { IfOk result (λ v. vec_len v ≡ len) }
{
    vec![in alloc; 0; len]
}

// What a link gives, into a buffer with room for any packet.
fn next_of<L: Link>(link: &mut L, buf: &mut Vec<u8>) -> Option<Came> {
    if buf.len() < ROOM {
        return None;
    }
    link.next(buf).ok()
}

fn read_into<S: Source>(source: &mut S, buf: &mut [u8]) -> Result<usize, Failed> {
    source.read(buf)
}

fn read_clock<C: Clock>(clock: &mut C) -> u64 {
    clock.now()
}

fn send_to<L: Link>(link: &mut L, to: u64, bytes: &[u8]) -> Result<(), Failed> {
    link.send(to, bytes)
}

#[test]
fn a_source_gives_pieces_and_goes_on_after_a_fault(rt: HostRuntime) -> Result<(), Fail> {
    let alloc = rt.alloc();
    let bytes = vec![in alloc; 1, 2, 3, 4, 5]?;
    let mut source = MemSource::new(bytes, 2, vec![in alloc; 2, 4]?);
    let calls: [Option<&[u8]>; 7] = [
        Some(&[1, 2]),
        None,
        Some(&[3, 4]),
        None,
        Some(&[5]),
        Some(&[]),
        Some(&[]),
    ];
    let mut buf = [0; 4];
    for want in calls {
        let got = read_into(&mut source, &mut buf).ok();
        assert_eq!(rt; got, want.map(|w| w.len()));
        if let Some(w) = want {
            assert_eq!(rt; &buf[..w.len().min(4)], w);
        }
    }
    Ok(())
}

#[test]
fn a_sink_fails_in_mid_stream(rt: HostRuntime) -> Result<(), Fail> {
    let alloc = rt.alloc();
    let mut sink = MemSink::new(2, vec![in alloc; 2]?);
    let calls: [(&[u8], bool, &[u8]); 3] = [
        (&[1, 2, 3, 4, 5], false, &[1, 2]),
        (&[7, 8, 9], true, &[1, 2, 7, 8, 9]),
        (&[], true, &[1, 2, 7, 8, 9]),
    ];
    for (bytes, succeeds, taken) in calls {
        assert_eq!(rt; write_all(&mut sink, bytes).is_ok(), succeeds);
        assert_eq!(rt; sink.taken(), taken);
    }
    assert_eq!(rt; sink.write(&[1, 2, 3])?, 2);
    assert!(rt; !sink.starved());
    Ok(())
}

#[test]
fn a_link_gives_its_packets_and_is_quiet_then(rt: HostRuntime) -> Result<(), Fail> {
    let alloc = rt.alloc();
    let first = vec![in alloc; 1, 2, 3]?;
    let second = vec![in alloc; 4]?;
    let packets = vec![in alloc; (70, first), (80, second)]?;
    let mut link = MemLink::new(packets, vec![in alloc; 2, 6]?);
    let mut buf = zeros(alloc, ROOM)?;
    let calls: [Option<(Came, &[u8])>; 5] = [
        Some((Came::Packet { from: 70, len: 3 }, &[1, 2, 3])),
        None,
        Some((Came::Packet { from: 80, len: 1 }, &[4])),
        Some((Came::Quiet, &[])),
        Some((Came::Quiet, &[])),
    ];
    for want in calls {
        assert_eq!(rt; next_of(&mut link, &mut buf), want.map(|(came, _)| came));
        if let Some((_, bytes)) = want {
            assert!(rt; buf.starts_with(bytes));
        }
    }
    assert!(rt; send_to(&mut link, 90, &[5]).is_err());
    assert!(rt; send_to(&mut link, 91, &[6, 7]).is_ok());
    assert_eq!(rt; link.sent(0), Some((91, [6, 7].as_slice())));
    assert_eq!(rt; link.sent(1), None);
    assert!(rt; !link.starved());
    Ok(())
}

#[test]
fn a_clock_repeats_its_last_reading(rt: HostRuntime) -> Result<(), Fail> {
    let mut clock = MemClock::new(vec![in rt.alloc(); 1, 4, 4, 9]?);
    for want in [1, 4, 4, 9, 9, 9] {
        assert_eq!(rt; read_clock(&mut clock), want);
    }
    Ok(())
}
