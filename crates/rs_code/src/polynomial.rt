ghost use Rattle.std.specs.Prelude.{◌≡◌, ◌*◌, ◌≤◌, ◌<◌, ℕ, bit_xor, length, slice_index, EachIndex};
ghost use Rattle.gf_lanes.specs.Field.{product};
ghost use Rattle.rs_code.specs.Polynomials.{polynomial};
ghost use Rattle.rs_code.specs.Fragments.{coefficients};

use gf_lanes::{gf_mul, mul_add};

/// The value at a point of the polynomial with these coefficients, lowest first.
pub fn value_at(coefficients: &[u8], point: u8) -> u8
    ensures { result ≡ polynomial (slice_index coefficients.now) (length coefficients.now) point }
{
    let mut value = 0;
    let mut power = 1;
    for coefficient in coefficients {
        value ^= gf_mul(*coefficient, power);
        power = gf_mul(point, power);
    }
    value
}

/// Adds to each byte `factor` times the value at a point of the polynomial whose coefficients are the bytes at its place
/// in the first `count` pieces, each as long as `sums`.
pub fn add_values(sums: &mut [u8], pieces: &[u8], count: usize, point: u8, factor: u8)
    requires { count * length sums.old ≤ length pieces.now }
    ensures { EachIndex sums.new (λ place. slice_index sums.new place
        ≡ bit_xor (slice_index sums.old place)
        (product factor (polynomial (coefficients pieces.now (length sums.old) place) count point))) }
{
    let size = sums.len();
    let mut multiplier = factor;
    for r in 0..count {
        mul_add(sums, &pieces[r * size..(r + 1) * size], multiplier);
        multiplier = gf_mul(point, multiplier);
    }
}

/// Adds to each of the first pieces, each as long as `numbers`, those numbers times the piece's multiplier.
pub fn add_multiples(pieces: &mut [u8], numbers: &[u8], multipliers: &[u8])
    requires { length multipliers.now * length numbers.now ≤ length pieces.old }
    ensures { let size = length numbers.now in (r place : ℕ) → r < length multipliers.now → place < size →
        coefficients pieces.new size place r
        ≡ bit_xor (coefficients pieces.old size place r)
        (product (slice_index multipliers.now r) (slice_index numbers.now place)) }
{
    let size = numbers.len();
    for (r, multiplier) in multipliers.iter().enumerate() {
        mul_add(&mut pieces[r * size..(r + 1) * size], numbers, *multiplier);
    }
}
