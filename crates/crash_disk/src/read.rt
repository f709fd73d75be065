//! Reading the bytes of the file.
ghost use Rattle.std.specs.Prelude.{◌≡◌, ◌≤◌, length};
ghost use Rattle.craft_edge.specs.Disk.{ReadsAt};

/// Reads from the offset `at` on into the front of `buf`, and answers how many bytes.
pub(crate) fn read_into(bytes: &[u8], at: u64, buf: &mut [u8]) -> usize
    ensures len { length buf.new ≡ length buf.old }
    ensures bound { result ≤ length buf.new }
    ensures read { ReadsAt bytes.now at result buf.new }
{
    let from = (at as usize).min(bytes.len());
    let rest = &bytes[from..];
    let count = rest.len().min(buf.len());
    buf[..count].copy_from_slice(&rest[..count]);
    count
}
