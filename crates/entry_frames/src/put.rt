//! Writing fields one after the other, into room that was made for them before.
ghost use Rattle.std.specs.Prelude.{◌≡◌, ◌≤◌, ◌+◌, ◌++◌, length, vec_len, vec_capacity, true};
ghost use Rattle.entry_frames.specs.Entries.{number_room};
ghost use Rattle.entry_frames.specs.Formats.{U8, U32, U64, number_bytes};

/// Bytes as they are.
pub fn put_bytes(out: &mut Vec<u8>, bytes: &[u8])
    requires { vec_len out.old + length bytes.now ≤ vec_capacity out.old }
    ensures items { out.new.items ≡ out.old.items ++ bytes.now }
    ensures len { vec_len out.new ≡ vec_len out.old + length bytes.now }
    ensures room { vec_capacity out.old ≤ vec_capacity out.new }
{
    let _ = out.extend_from_slice(bytes);
}

/// A number of one byte.
pub fn put_byte(out: &mut Vec<u8>, byte: u8)
    requires { vec_len out.old + 1 ≤ vec_capacity out.old }
    ensures items { out.new.items ≡ out.old.items ++ number_bytes true U8 byte }
    ensures len { vec_len out.new ≡ vec_len out.old + 1 }
    ensures room { vec_capacity out.old ≤ vec_capacity out.new }
{
    put_bytes(out, &byte.to_be_bytes());
}

/// A number of eight bytes.
pub fn put_u64(out: &mut Vec<u8>, number: u64)
    requires { vec_len out.old + 8 ≤ vec_capacity out.old }
    ensures items { out.new.items ≡ out.old.items ++ number_bytes true U64 number }
    ensures len { vec_len out.new ≡ vec_len out.old + 8 }
    ensures room { vec_capacity out.old ≤ vec_capacity out.new }
{
    put_bytes(out, &number.to_be_bytes());
}

/// A number of eight bytes, where it stands.
pub fn put_u64_if(out: &mut Vec<u8>, stands: bool, number: u64)
    requires { vec_len out.old + number_room stands U64 ≤ vec_capacity out.old }
    ensures items { out.new.items ≡ out.old.items ++ number_bytes stands U64 number }
    ensures len { vec_len out.new ≡ vec_len out.old + number_room stands U64 }
    ensures room { vec_capacity out.old ≤ vec_capacity out.new }
{
    if stands {
        put_u64(out, number);
    }
}

/// A number of four bytes, where it stands.
pub fn put_u32_if(out: &mut Vec<u8>, stands: bool, number: u32)
    requires { vec_len out.old + number_room stands U32 ≤ vec_capacity out.old }
    ensures items { out.new.items ≡ out.old.items ++ number_bytes stands U32 number }
    ensures len { vec_len out.new ≡ vec_len out.old + number_room stands U32 }
    ensures room { vec_capacity out.old ≤ vec_capacity out.new }
{
    if stands {
        put_bytes(out, &number.to_be_bytes());
    }
}
