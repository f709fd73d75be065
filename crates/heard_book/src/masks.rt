//! Bits of masks.
ghost use Rattle.std.specs.Prelude.{◌≡◌, ◌==◌, ◌<◌, ◌||◌, ℕ};
ghost use Rattle.std.specs.Int.{bit_at};

use craft_base::MemberId;

/// Whether a mask of entries has that bit.
pub(crate) fn has_entry(mask: u8, bit: u64) -> bool
    requires { bit < 8 }
    ensures { result ≡ (bit_at mask bit == 1) }
{
    (mask >> bit) % 2 == 1
}

/// Whether a mask of members has the bit of that member.
pub(crate) fn has_member(mask: u16, member: MemberId) -> bool
    ensures { result ≡ (bit_at mask member == 1) }
{
    (mask >> member.number()) % 2 == 1
}

/// The mask of members with that member.
pub(crate) fn with_member(mask: u16, member: MemberId) -> u16
    ensures { (other : ℕ) → (bit_at result other == 1) ≡ ((member == other) || (bit_at mask other == 1)) }
{
    mask | 1 << member.number()
}
