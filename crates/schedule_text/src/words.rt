//! The words of a line that aren't numbers.
ghost use Rattle.std.specs.Prelude.{◌≡◌, IfOk, string_bytes};
ghost use Rattle.world_model.specs.Lines as lines;

use line_input::digits_of;
use peer_frames::Role;
use std::alloc::{AllocError, Global};

/// A role by its name.
pub fn role_word(role: Role) -> &'static str
    ensures { result.now ≡ lines.role_word role }
{
    match role {
        Role::Follower => "follower",
        Role::Candidate => "candidate",
        Role::Preparing => "preparing",
        Role::Leader => "leader",
    }
}

/// Why entries were removed: in a preparation, or since a leader's log differs.
pub fn cut_word(prep: bool) -> &'static str
    ensures { result.now ≡ lines.cut_word prep }
{
    if prep { "prep" } else { "lead" }
}

pub fn yes_or_no(yes: bool) -> &'static str
    ensures { result.now ≡ lines.yes_or_no yes }
{
    if yes { "yes" } else { "no" }
}

/// A byte in two lower case hexadecimal digits.
pub fn byte_word(alloc: Global, byte: u8) -> Result<String, AllocError>
    ensures { IfOk result (λ word. string_bytes word ≡ lines.byte_word byte) }
{
    digits_of(alloc, &[byte])
}
