ghost use Rattle.std.specs.Prelude.{◌≡◌, ◌≢◌, ◌+◌, ◌*◌, ◌≤◌, ◌<◌, ℕ, All, bit_xor, length, slice_index};
ghost use Rattle.gf_lanes.specs.Field.{product};
ghost use Rattle.rs_code.specs.Polynomials.{polynomial};
ghost use Rattle.rs_code.specs.Fragments.{coefficients};
ghost use Rattle.rs_code.specs.Roots.{times_root};

use crate::polynomial::{add_multiples, add_values, value_at};
use gf_lanes::{gf_inv, mul_add};

/// The coefficients, lowest first, of a polynomial of degree at most 8: the product of x + point over the points that
/// were taken.
pub type Roots = [u8; 9];

/// Makes the polynomials of the first `count` registers, each as long as `part`, go through the bytes of `part` at a
/// point as well, by register `count`. At the roots their values stay.
pub fn interpolate(registers: &mut [u8], count: usize, roots: &Roots, point: u8, part: &[u8])
    requires room { (count + 1) * length part.now ≤ length registers.old }
    requires few { count ≤ 8 }
    requires apart { polynomial (slice_index roots.now) 9 point ≢ 0 }
    ensures bytes { All (λ b. b < 256) registers.new }
    ensures newest { let size = length part.now in (place : ℕ) → place < size →
        product (polynomial (slice_index roots.now) 9 point) (coefficients registers.new size place count)
        ≡ bit_xor (slice_index part.now place)
        (polynomial (coefficients registers.old size place) count point) }
    ensures earlier { let size = length part.now in (r place : ℕ) → r < count → place < size →
        coefficients registers.new size place r
        ≡ bit_xor (coefficients registers.old size place r)
        (product (slice_index roots.now r) (coefficients registers.new size place count)) }
{
    let (earlier, rest) = registers.split_at_mut(count * part.len());
    let newest = &mut rest[..part.len()];
    let factor = gf_inv(value_at(roots, point));
    newest.fill(0);
    mul_add(newest, part, factor);
    add_values(newest, earlier, count, point, factor);
    add_multiples(earlier, newest, &roots[..count]);
}

/// The polynomial times x + point.
pub fn with_root(roots: &Roots, point: u8) -> Roots
    ensures { (r : ℕ) → r < 9 → slice_index result r ≡ times_root (slice_index roots.now) point r }
{
    let mut next = [0; 9];
    next[1..].copy_from_slice(&roots[..8]);
    mul_add(&mut next, roots, point);
    next
}
