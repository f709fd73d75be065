ghost use Rattle.std.specs.Prelude.{◌≡◌, ◌+◌, ◌-◌, ◌*◌, ◌≤◌, ◌<◌, ◌^◌, ℕ, min, bit_xor, length, slice_index, EachIndex};
ghost use Rattle.gf_lanes.specs.Field.{product};
ghost use Rattle.craft_base.specs.Parts.{part_length};
ghost use Rattle.rs_code.specs.Fragments.{fragment};
ghost use Rattle.rs_code.specs.Determined.{AnyFragmentsDetermine};

use gf_lanes::{scale, scale_add, scale_add_to};

/// Writes the fragment of a value for a member into `out`: `part_len` of the value's length bytes, any `k` of which
/// rebuild the value. Two values of one length that share the fragments of any `k` members are equal.
pub fn part_into(value: &[u8], k: u8, member: u8, out: &mut [u8])
    requires some_need { 1 ≤ k }
    requires most_need { k ≤ 8 }
    requires in_group { member ≤ 14 }
    requires room { length out.old ≡ part_length (length value.now) k }
    ensures fragment { out.new ≡ fragment value.now k member }
    ensures law { AnyFragmentsDetermine k }
{
    let size = out.len();
    let point = member + 1;
    let last = piece_of(value, usize::from(k - 1), size);
    if k == 1 {
        write_piece(out, last);
        return;
    }
    first_step(out, last, piece_of(value, usize::from(k - 2), size), point);
    for r in (0..k - 2).rev() {
        step(out, piece_of(value, usize::from(r), size), point);
    }
}

/// The piece of that size at place `r` of a value: shorter at the value's end, and empty past it.
fn piece_of(value: &[u8], r: usize, size: usize) -> &[u8]
    requires { r * size < 2 ^ 64 }
    ensures length { length result.now ≡ min (length value.now - r * size) size }
    ensures bytes { (place : ℕ) → place < size →
        slice_index result.now place ≡ slice_index value.now (r * size + place) }
{
    let start = value.len().min(r * size);
    let rest = &value[start..];
    &rest[..rest.len().min(size)]
}

/// Writes a piece, and 0 past its end.
fn write_piece(out: &mut [u8], piece: &[u8])
    requires { length piece.now ≤ length out.old }
    ensures { EachIndex out.new (λ place. slice_index out.new place ≡ slice_index piece.now place) }
{
    let (front, rest) = out.split_at_mut(piece.len());
    front.copy_from_slice(piece);
    rest.fill(0);
}

/// The first step of Horner's rule: each byte of the last piece times the point, plus the byte at its place in the piece
/// before it. Bytes past the end of a piece are 0.
fn first_step(out: &mut [u8], last: &[u8], before: &[u8], point: u8)
    requires shorter { length last.now ≤ length before.now }
    requires room { length before.now ≤ length out.old }
    ensures { EachIndex out.new (λ place. slice_index out.new place
        ≡ bit_xor (product point (slice_index last.now place)) (slice_index before.now place)) }
{
    let (front, rest) = out.split_at_mut(last.len());
    let (added, more) = before.split_at(last.len());
    scale_add_to(front, last, added, point);
    write_piece(rest, more);
}

/// A further step: each byte times the point, plus the byte at its place in the piece, which is 0 past its end.
fn step(sums: &mut [u8], piece: &[u8], point: u8)
    requires { length piece.now ≤ length sums.old }
    ensures { EachIndex sums.new (λ place. slice_index sums.new place
        ≡ bit_xor (product point (slice_index sums.old place)) (slice_index piece.now place)) }
{
    let (front, rest) = sums.split_at_mut(piece.len());
    scale_add(front, piece, point);
    scale(rest, point);
}
