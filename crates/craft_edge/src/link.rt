//! Packets from and to other places.
ghost use Rattle.std.specs.Prelude.{◌≡◌, ◌≤◌, ℕ, List, Option, is_some, is_err, length, IfOk};
ghost use Rattle.craft_edge.specs.Causes.{HasCause};
ghost use Rattle.craft_edge.specs.Packets.{Packet, after_send};

use crate::failed::Failed;

/// What a link gave.
#[derive(Clone, Copy, Debug, PartialEq, Eq)]
pub enum Came {
    /// A packet of `len` bytes from the place `from`.
    Packet { from: u64, len: usize },
    /// No packet came.
    Quiet,
}

/// A link that carries packets and may lose them.
///
/// A place is the IPv4 address as a 32-bit number times 65,536, plus the port.
pub trait Link {
    ghost use Rattle.craft_edge.specs.Link.{FitsBuffer, Gives};

    /// The packets still to come, where the link tells them.
    ghost coming: { Self → Option (List Packet) };

    /// The packets sent, the oldest first, where the link tells them.
    ghost sent: { Self → Option (List Packet) };

    /// How often the link has failed.
    ghost faults: { Self → ℕ };

    /// Waits a while for a packet, writes it to the front of `buf`, and answers where it came from and its
    /// length. The buffer has room for any packet: 65,536 bytes at least. A call that fails takes no packet.
    fn next(&mut self, buf: &mut [u8]) -> Result<Came, Failed>
        requires { 65536 ≤ length buf.old }
        ensures bound { IfOk result (FitsBuffer buf.new) }
        ensures gives { Gives (coming self.old) (coming self.new) buf.new result }
        ensures told { is_some (coming self.new) ≡ is_some (coming self.old) }
        ensures sent { sent self.new ≡ sent self.old }
        ensures cause { HasCause (faults self.old) (faults self.new) result };

    /// Sends a packet to a place. A packet that the link drops was sent too, and is a loss and no fault.
    /// A call that fails sends none.
    fn send(&mut self, to: u64, bytes: &[u8]) -> Result<(), Failed>
        ensures sent { sent self.new ≡ after_send (sent self.old) (record { place = to; bytes = bytes.now }) (is_err result) }
        ensures coming { coming self.new ≡ coming self.old }
        ensures cause { HasCause (faults self.old) (faults self.new) result };
}
