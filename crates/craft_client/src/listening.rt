//! Listening to the packets that come after a request was sent.
ghost use Rattle.std.specs.Prelude.{◌≡◌, ◌≤◌, is_some, length, IfOk, IfErr};
ghost use Rattle.craft_client.specs.Asking.{packets_of_try};
ghost use Rattle.craft_client.specs.Members.{NamesMember, NamesMemberIfAny};
ghost use Rattle.craft_client.specs.Telling.{EndsEarly, Listens, TakesPacket};

use crate::client_fault::ClientFault;
use crate::told::{Told, told_by};
use craft_base::{Request, Shape};
use craft_edge::{Came, Link};
use std::alloc::Global;

/// How many packets a try looks at.
const PACKETS_OF_TRY: u8 = 64;

/// How often the link is quiet in a try that sees fewer packets.
const QUIETS_OF_TRY: u8 = 10;

/// Listens to the packets of one try, up to the first that ends it. The buffer has room for any packet.
pub fn listen<L: Link>(
    alloc: Global,
    shape: &Shape,
    request: &Request,
    link: &mut L,
    buf: &mut [u8],
) -> Result<Told, ClientFault>
    requires { 65536 ≤ length buf.old }
    ensures told { IfOk result (Listens shape.now request.now packets_of_try (L.coming link.old) (L.coming link.new)) }
    ensures member { IfOk result (NamesMember shape.now) }
    ensures early { IfErr result (EndsEarly (L.faults link.old) (L.faults link.new)) }
    ensures coming { is_some (L.coming link.new) ≡ is_some (L.coming link.old) }
    ensures sent { L.sent link.new ≡ L.sent link.old }
    ensures later { L.faults link.old ≤ L.faults link.new }
{
    let mut packets = 0;
    let mut quiets = 0;
    while packets < PACKETS_OF_TRY && quiets < QUIETS_OF_TRY {
        match next_told(alloc, shape, request, link, buf)? {
            None => quiets += 1,
            Some(told) if told.is_nothing() => packets += 1,
            Some(told) => return Ok(told),
        }
    }
    Ok(Told::Nothing)
}

/// What the next packet tells, if one came.
fn next_told<L: Link>(
    alloc: Global,
    shape: &Shape,
    request: &Request,
    link: &mut L,
    buf: &mut [u8],
) -> Result<Option<Told>, ClientFault>
    requires { 65536 ≤ length buf.old }
    ensures told { IfOk result (TakesPacket shape.now request.now (L.coming link.old) (L.coming link.new)) }
    ensures member { IfOk result (NamesMemberIfAny shape.now) }
    ensures early { IfErr result (EndsEarly (L.faults link.old) (L.faults link.new)) }
    ensures coming { is_some (L.coming link.new) ≡ is_some (L.coming link.old) }
    ensures sent { L.sent link.new ≡ L.sent link.old }
    ensures later { L.faults link.old ≤ L.faults link.new }
{
    match link.next(buf)? {
        Came::Quiet => Ok(None),
        Came::Packet { len, .. } => {
            let told = told_by(alloc, shape, request, &buf[..len])?;
            Ok(Some(told))
        }
    }
}
