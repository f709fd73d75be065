//! A member, or none, as a byte.
ghost use Rattle.std.specs.Prelude.{◌≡◌};
ghost use Rattle.entry_frames.specs.Replies.{member_byte, member_with};

/// The byte that stands for no member.
const NOBODY: u8 = 255;

/// The member that a byte stands for, if it stands for one.
pub fn member_with(byte: u8) -> Option<u8>
    ensures { result ≡ member_with byte }
{
    if byte == NOBODY { None } else { Some(byte) }
}

/// The byte that stands for a member, or for none.
pub fn member_byte(member: Option<u8>) -> u8
    ensures { result ≡ member_byte member }
{
    member.unwrap_or(NOBODY)
}
