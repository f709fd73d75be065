//! A socket that carries datagrams.
ghost use Rattle.std.specs.Prelude.{◌≡◌, ◌≤◌, None};
ghost use Rattle.craft_edge.specs.Causes.{Rose};

use craft_edge::{Came, Failed, Link};
use std::io::{self, ErrorKind};
use std::net::{Ipv4Addr, SocketAddr, SocketAddrV4, UdpSocket};
use std::time::Duration;

/// How long a call waits for a packet, in milliseconds.
const WAIT: u64 = 10;

/// A UDP socket over IPv4. It waits at most 10 milliseconds for a packet. What the system can't carry now is a loss.
#[derive(Drop)]
pub struct UdpLink {
    socket: UdpSocket,
    faults: u64,
}

impl UdpLink {
    /// A link over that socket, which waits no longer than that from now on.
    pub fn new(socket: UdpSocket) -> io::Result<UdpLink> {
        socket.set_read_timeout(Some(Duration::from_millis(WAIT)))?;
        Ok(UdpLink { socket, faults: 0 })
    }

    fn fail(&mut self) -> Failed
        ensures rose { Rose self.old.faults self.new.faults }
        ensures later { self.old.faults ≤ self.new.faults }
    {
        self.faults = self.faults.saturating_add(1);
        Failed
    }
}

/// The address of a place.
pub fn address_of(place: u64) -> SocketAddrV4 {
    let address = Ipv4Addr::from_bits((place >> 16 & 0xffff_ffff) as u32);
    SocketAddrV4::new(address, (place & 0xffff) as u16)
}

/// The place of an address to which something can be sent.
fn place_of(address: SocketAddr) -> Option<u64> {
    match address {
        SocketAddr::V4(address) if address.port() != 0 => {
            let ip = u64::from(address.ip().to_bits());
            Some(ip << 16 | u64::from(address.port()))
        }
        _ => None,
    }
}

/// Whether such an error passes: nothing came, or what was sent is lost.
fn passes(kind: ErrorKind) -> bool {
    matches!(
        kind,
        ErrorKind::ConnectionRefused
            | ErrorKind::ConnectionReset
            | ErrorKind::HostUnreachable
            | ErrorKind::NetworkUnreachable
            | ErrorKind::WouldBlock
            | ErrorKind::TimedOut
            | ErrorKind::Interrupted
    )
}

impl Link for UdpLink {
    ghost coming = { λ link. None };

    ghost sent = { λ link. None };

    ghost faults = { λ link. link.faults };

    fn next(&mut self, buf: &mut [u8]) -> Result<Came, Failed> {
        match self.socket.recv_from(buf) {
            Ok((len, address)) => match place_of(address) {
                Some(from) => Ok(Came::Packet { from, len }),
                None => Ok(Came::Quiet),
            },
            Err(error) if passes(error.kind()) => Ok(Came::Quiet),
            Err(_) => Err(self.fail()),
        }
    }

    fn send(&mut self, to: u64, bytes: &[u8]) -> Result<(), Failed> {
        match self.socket.send_to(bytes, address_of(to)) {
            Ok(_) => Ok(()),
            Err(error) if passes(error.kind()) => Ok(()),
            Err(_) => Err(self.fail()),
        }
    }
}
