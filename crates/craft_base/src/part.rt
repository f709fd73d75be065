ghost use Rattle.std.specs.Prelude.{◌≡◌, ◌≤◌, ◌*◌, ℕ};
ghost use Rattle.craft_base.specs.Parts.{part_length};

/// The length of each fragment of a value of `vlen` bytes, any `k` of which rebuild it: the least whole number that `k`
/// times is at least `vlen`.
pub fn part_len(vlen: usize, k: u8) -> usize
    requires { 1 ≤ k }
    ensures value { result ≡ part_length vlen k }
    ensures enough { vlen ≤ result * k }
    ensures least { (shorter : ℕ) → vlen ≤ shorter * k → result ≤ shorter }
{
    vlen.div_ceil(usize::from(k))
}
