//! What the system does with the adapters.
ghost use Rattle.std.specs.Prelude.{◌≤◌};

use crate::{FileDisk, StdSink, StdSource, TickClock, UdpLink, address_of};
use craft_edge::{Came, Clock, Disk, Link, Sink, Source};
use std::net::UdpSocket;
use std::test::Fail;
use std::time::Duration;
use std::{fs, thread};

/// 127.0.0.1 at that port: 127 * 2^24 + 1 is 2,130,706,433.
fn place(port: u64) -> u64
    requires { port ≤ 65535 }
{
    2_130_706_433 * 65_536 + port
}

#[test]
fn a_reader_is_a_source(rt: HostRuntime) -> Result<(), Fail> {
    let mut src = StdSource::new(b"abc".as_slice());
    let mut buf = [0u8; 2];
    assert_eq!(rt; src.read(&mut buf)?, 2);
    assert_eq!(rt; buf, *b"ab");
    assert_eq!(rt; src.read(&mut buf)?, 1);
    assert_eq!(rt; buf[0], b'c');
    assert_eq!(rt; src.read(&mut buf)?, 0);
    Ok(())
}

#[test]
fn a_writer_is_a_sink(rt: HostRuntime) -> Result<(), Fail> {
    let mut out = StdSink::new(Vec::new(rt.alloc()));
    assert_eq!(rt; out.write(b"ab")?, 2);
    assert_eq!(rt; out.write(b"")?, 0);
    Ok(())
}

/// A file keeps what is written, in one step and past it, and once closed opens with the same.
#[test]
fn a_file_is_a_disk(rt: HostRuntime) -> Result<(), Fail> {
    let path = "adapters_disk";
    let _ = fs::remove_file(&rt, path);
    let mut disk = FileDisk::open(&rt, path)?;
    assert_eq!(rt; disk.len()?, 0);
    disk.write_at(0, b"x")?;
    disk.write_at(1, &[7u8; 32])?;
    disk.sync()?;
    assert_eq!(rt; disk.len()?, 33);
    disk.write_at(33, b"group")?;
    assert_eq!(rt; disk.len()?, 1_048_576);
    disk.write_at(1_048_574, b"edge")?;
    assert_eq!(rt; disk.len()?, 2_097_152);
    disk.sync()?;
    drop(disk);
    let mut disk = FileDisk::open(&rt, path)?;
    let mut buf = [1u8; 7];
    assert_eq!(rt; disk.read_at(32, &mut buf)?, 7);
    assert_eq!(rt; buf, *b"\x07group\x00");
    assert_eq!(rt; disk.read_at(1_048_573, &mut buf)?, 7);
    assert_eq!(rt; buf, *b"\x00edge\x00\x00");
    assert_eq!(rt; disk.read_at(2_097_152, &mut buf)?, 0);
    assert!(rt; disk.write_at(1 << 62, b"y").is_err());
    drop(disk);
    fs::remove_file(&rt, path)?;
    Ok(())
}

#[test]
fn a_file_is_opened_once(rt: HostRuntime) -> Result<(), Fail> {
    let path = "adapters_lock";
    let disk = FileDisk::open(&rt, path)?;
    assert!(rt; FileDisk::open(&rt, path).is_err());
    drop(disk);
    assert!(rt; FileDisk::open(&rt, path).is_ok());
    assert!(rt; FileDisk::open(&rt, "no such folder/disk").is_err());
    fs::remove_file(&rt, path)?;
    Ok(())
}

/// The place of the port that the system gave a socket.
fn port_of(socket: &UdpSocket) -> Result<u64, Fail> {
    Ok(place(u64::from(socket.local_addr()?.port())))
}

#[test]
fn two_sockets_carry_packets(rt: HostRuntime) -> Result<(), Fail> {
    let one = UdpSocket::bind(&rt, address_of(place(0)))?;
    let other = UdpSocket::bind(&rt, address_of(place(0)))?;
    let (from, to) = (port_of(&one)?, port_of(&other)?);
    let mut one = UdpLink::new(one)?;
    let mut other = UdpLink::new(other)?;
    let mut buf = vec![in rt.alloc(); 0u8; 65_536]?;
    assert_eq!(rt; other.next(&mut buf)?, Came::Quiet);
    one.send(to, b"hello")?;
    assert_eq!(rt; other.next(&mut buf)?, Came::Packet { from, len: 5 });
    assert!(rt; buf.starts_with(b"hello"));
    one.send(to, b"")?;
    assert_eq!(rt; other.next(&mut buf)?, Came::Packet { from, len: 0 });
    assert_eq!(rt; other.next(&mut buf)?, Came::Quiet);
    Ok(())
}

/// Where nobody listens a packet is lost, and the refusal that comes back is quiet. What can't be sent at all is a fault.
#[test]
fn a_loss_is_no_fault(rt: HostRuntime) -> Result<(), Fail> {
    let gone = UdpSocket::bind(&rt, address_of(place(0)))?;
    let nobody = port_of(&gone)?;
    drop(gone);
    let mut link = UdpLink::new(UdpSocket::bind(&rt, address_of(place(0)))?)?;
    let mut buf = vec![in rt.alloc(); 0u8; 65_536]?;
    link.send(nobody, b"hello")?;
    assert_eq!(rt; link.next(&mut buf)?, Came::Quiet);
    link.send(nobody, b"hello")?;
    assert!(rt; link.send(place(0), b"hello").is_err());
    assert!(rt; link.send(nobody, &[0u8; 65_536]).is_err());
    Ok(())
}

#[test]
fn ticks_rise(rt: HostRuntime) -> Result<(), Fail> {
    let mut clock = TickClock::new(&rt);
    assert_eq!(rt; clock.now(), 0);
    thread::sleep(&rt, Duration::from_millis(120));
    let ticks = clock.now();
    assert!(rt; ticks >= 2, "{ticks} ticks in 120 ms");
    assert!(rt; clock.now() >= ticks);
    Ok(())
}
