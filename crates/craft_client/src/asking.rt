//! A client asks the members of a cluster, one after the other, until one gives the final reply.
ghost use Rattle.std.specs.Prelude.{◌≡◌, ◌<◌, ◌≤◌, is_some, length, IfOk, IfErr};
ghost use Rattle.craft_base.specs.Shape.{members_of};
ghost use Rattle.entry_frames.specs.Formats.{Fits};
ghost use Rattle.entry_frames.specs.MessageFields.{request_fields};
ghost use Rattle.craft_client.specs.Asking.{asked_next, packets_of_try, next_member, request_to};
ghost use Rattle.craft_client.specs.Members.{NamesMember};
ghost use Rattle.craft_client.specs.Telling.{Answers, EndsEarly, Listens, Sends, SendsAtMost};

use crate::client_fault::ClientFault;
use crate::listening::listen;
use crate::request_frame::request_frame;
use crate::told::Told;
use craft_base::{MemberId, Reply, Request, Shape};
use craft_edge::Link;
use std::alloc::Global;

/// A buffer of this length has room for any packet.
const ROOM: usize = 65_536;

/// Asks the members of a cluster for the reply to a request, by at most `tries` sends, and answers the final reply with the
/// member that gives it. `places` are those of the members in their order.
pub fn ask_group<L: Link>(
    alloc: Global,
    shape: &Shape,
    places: &[u64],
    request: &Request,
    tries: u64,
    link: &mut L,
) -> Result<(MemberId, Reply), ClientFault>
    requires places { length places.now ≡ members_of shape.now }
    requires request { Fits request_fields request.now }
    ensures answers { Answers shape.now places.now request.now tries
        (record { coming = L.coming link.old; sent = L.sent link.old; faults = L.faults link.old })
        (record { coming = L.coming link.new; sent = L.sent link.new; faults = L.faults link.new }) result }
    ensures member { IfOk result (λ answer. answer.0 < members_of shape.now) }
    ensures coming { is_some (L.coming link.new) ≡ is_some (L.coming link.old) }
    ensures sent { is_some (L.sent link.new) ≡ is_some (L.sent link.old) }
    ensures later { L.faults link.old ≤ L.faults link.new }
{
    let mut buf = vec![in alloc; 0; ROOM]?;
    let mut member = MemberId::default();
    for _ in 0..tries {
        match try_member(alloc, shape, places, request, member, link, &mut buf)? {
            Told::Final(answer) => return Ok(answer),
            told => member = next_asked(shape, member, &told),
        }
    }
    Err(ClientFault::NoAnswer { sent: tries })
}

/// One try: sends the request to that member, and listens.
fn try_member<L: Link>(
    alloc: Global,
    shape: &Shape,
    places: &[u64],
    request: &Request,
    member: MemberId,
    link: &mut L,
    buf: &mut [u8],
) -> Result<Told, ClientFault>
    requires room { 65536 ≤ length buf.old }
    requires places { length places.now ≡ members_of shape.now }
    requires request { Fits request_fields request.now }
    requires member { member < members_of shape.now }
    ensures told { IfOk result (Listens shape.now request.now packets_of_try (L.coming link.old) (L.coming link.new)) }
    ensures member { IfOk result (NamesMember shape.now) }
    ensures whole { IfOk result (λ told. Sends (L.sent link.old) (L.sent link.new) (request_to shape.now places.now request.now member)) }
    ensures part { IfErr result (λ fault. SendsAtMost (L.sent link.old) (L.sent link.new) (request_to shape.now places.now request.now member)) }
    ensures early { IfErr result (EndsEarly (L.faults link.old) (L.faults link.new)) }
    ensures coming { is_some (L.coming link.new) ≡ is_some (L.coming link.old) }
    ensures later { L.faults link.old ≤ L.faults link.new }
{
    let frame = request_frame(alloc, shape, request, member)?;
    link.send(places[usize::from(member.number())], frame.as_bytes())?;
    listen(alloc, shape, request, link, buf)
}

/// Whom to ask behind that member, after a try that was told this: the member that was named, or the next one.
fn next_asked(shape: &Shape, member: MemberId, told: &Told) -> MemberId
    requires member { member < members_of shape.now }
    requires named { NamesMember shape.now told.now }
    ensures value { result ≡ asked_next shape.now member told.now }
    ensures range { result < members_of shape.now }
{
    match told {
        Told::Elsewhere(hint) => *hint,
        Told::Nothing | Told::Final(_) => behind(shape, member),
    }
}

/// The member behind that one; member 0 behind the last.
fn behind(shape: &Shape, member: MemberId) -> MemberId
    requires { member < members_of shape.now }
    ensures value { result ≡ next_member shape.now member }
    ensures range { result < members_of shape.now }
{
    MemberId::new(shape, member.number() + 1).unwrap_or_default()
}
