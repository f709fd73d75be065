//! What a crash makes of the pending bytes.
ghost use Rattle.std.specs.Prelude.{◌≡◌, ℕ, ◌≤◌, ◌<◌, ◌-◌, ◌&&◌, leb, ltb, length, get_or, if◌then◌else◌, IfOk};
ghost use Rattle.crash_disk.specs.Kept.{lies_in};
ghost use Rattle.crash_disk.specs.Image.{spoiled_where};

use std::alloc::{AllocError, Global};

// Puts the complement of each byte of `held` in its place, from one offset on up to another.
fn complement(bytes: &mut [u8], held: &[u8], from: usize, end: usize)
    requires same { length bytes.old ≡ length held.now }
    requires within { end ≤ length held.now }
    ensures len { length bytes.new ≡ length bytes.old }
    ensures each { (i : ℕ) → i < length bytes.old → get_or bytes.new i 0 ≡ (if leb from i && ltb i end then 255 - get_or held.now i 0 else get_or bytes.old i 0) }
{
    for i in from..end {
        bytes[i] = u8::MAX - held[i];
    }
}

/// The bytes with the complement in the place of each one that lies in a pending range.
pub(crate) fn spoil(
    alloc: Global,
    held: &[u8],
    pending: &[(u64, u64)],
) -> Result<Vec<u8>, AllocError>
    ensures { IfOk result (λ v. v.items ≡ spoiled_where (lies_in pending.now) 0 held.now) }
{
    let mut bytes = held.to_vec(alloc)?;
    for &(at, len) in pending {
        let end = at.saturating_add(len).min(held.len() as u64);
        complement(&mut bytes, held, at as usize, end as usize);
    }
    Ok(bytes)
}
