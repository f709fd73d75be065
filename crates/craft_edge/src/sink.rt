//! Where bytes go.
ghost use Rattle.std.specs.Prelude.{◌≡◌, ◌<◌, ℕ, List, Option, is_some, length, IfOk, OnOk, OnErr};
ghost use Rattle.std.specs.Io.{WritesAtMost};
ghost use Rattle.std.specs.Io.KnownBytes.{Appends};
ghost use Rattle.craft_edge.specs.Bytes.{AppendsPrefix, WriteTakes};
ghost use Rattle.craft_edge.specs.Causes.{HasCause, Rose};

use crate::failed::Failed;

/// A stream of bytes that is written in pieces.
pub trait Sink {
    /// The bytes taken so far, where the sink tells them.
    ghost taken: { Self → Option (List ℕ) };

    /// How often the sink has failed.
    ghost faults: { Self → ℕ };

    /// Takes a first part of `bytes` and answers its length. A write that fails took some first part too.
    /// An answer of 0 on bytes that aren't empty is a fault.
    fn write(&mut self, bytes: &[u8]) -> Result<usize, Failed>
        ensures bound { WritesAtMost result bytes.now }
        ensures bytes { WriteTakes (taken self.old) (taken self.new) result bytes.now }
        ensures told { is_some (taken self.new) ≡ is_some (taken self.old) }
        ensures stalled { IfOk result (λ n. n ≡ 0 → 0 < length bytes.now → Rose (faults self.old) (faults self.new)) }
        ensures cause { HasCause (faults self.old) (faults self.new) result };
}

/// Writes all the bytes, by as many writes as it takes. After `Failed` the sink has taken a first part of them.
pub fn write_all<O: Sink>(out: &mut O, bytes: &[u8]) -> Result<(), Failed>
    ensures whole { OnOk result (Appends (O.taken out.old) (O.taken out.new) bytes.now) }
    ensures part { OnErr result (AppendsPrefix (O.taken out.old) (O.taken out.new) bytes.now) }
    ensures told { is_some (O.taken out.new) ≡ is_some (O.taken out.old) }
    ensures cause { HasCause (O.faults out.old) (O.faults out.new) result }
{
    let mut at = 0;
    while at < bytes.len() {
        let count = out.write(&bytes[at..])?;
        if count == 0 {
            return Err(Failed);
        }
        at += count;
    }
    Ok(())
}
