ghost use Rattle.std.specs.Prelude.{◌≡◌, ◌+◌, ◌*◌, ◌%◌, ◌≤◌, ◌<◌, ℕ, length, slice_index, bit_xor};
ghost use Rattle.gf_lanes.specs.Field.{double, product};
ghost use Rattle.gf_lanes.specs.Lanes.{HasLanes, AreProducts, IsStored};

use crate::field::{REDUCTION, gf_mul};
use std::simd::prelude::*;

/// The numbers from place `at` on.
#[inline(always)]
pub fn load(numbers: &[u8], at: usize) -> u8x32
    requires { at + 32 ≤ length numbers.now }
    ensures { HasLanes result (λ k. slice_index numbers.now (at + k)) }
{
    u8x32::from_slice(&numbers[at..])
}

/// Writes a block over the numbers from place `at` on.
#[inline(always)]
pub fn store(block: u8x32, numbers: &mut [u8], at: usize)
    requires { at + 32 ≤ length numbers.old }
    ensures { IsStored numbers.old block at numbers.new }
{
    block.copy_to_slice(&mut numbers[at..]);
}

/// The sums of the numbers of two blocks.
#[inline(always)]
pub fn sums(a: u8x32, b: u8x32) -> u8x32
    ensures { HasLanes result (λ k. bit_xor (slice_index a k) (slice_index b k)) }
{
    a ^ b
}

/// Twice the numbers of a block: each shifted left by one, and reduced where its bit 7 was set.
#[inline(always)]
fn doubles(block: u8x32) -> u8x32
    ensures { HasLanes result (λ k. double (slice_index block k)) }
{
    let carries = block
        .simd_ge(u8x32::splat(0x80))
        .select(u8x32::splat(REDUCTION), u8x32::splat(0));
    (block << u8x32::splat(1)) ^ carries
}

/// The products of a constant with the numbers below 16, and with 16 times those.
#[inline(always)]
pub fn products_of(c: u8) -> (u8x32, u8x32)
    ensures { AreProducts c result.0 result.1 }
{
    (twice_over(&row(c, 1)), twice_over(&row(c, 16)))
}

/// The products of a constant with the first 16 multiples of `step`.
#[inline(always)]
fn row(c: u8, step: u8) -> [u8; 16]
    requires { step ≤ 16 }
    ensures { (i : ℕ) → i < 16 → slice_index result i ≡ product c (step * i) }
{
    let mut row = [0; 16];
    for i in 0..16u8 {
        row[usize::from(i)] = gf_mul(c, step * i);
    }
    row
}

/// A row of 16 numbers, once in each half of a block, since a look-up stays in its half.
#[inline(always)]
fn twice_over(row: &[u8; 16]) -> u8x32
    ensures { HasLanes result (λ k. slice_index row.now (k % 16)) }
{
    u8x16::from_slice(row).swizzle([
        0, 1, 2, 3, 4, 5, 6, 7, 8, 9, 10, 11, 12, 13, 14, 15, 0, 1, 2, 3, 4, 5, 6, 7, 8, 9, 10, 11,
        12, 13, 14, 15,
    ])
}

/// The products of a constant with the numbers of a block, each the sum of those with its low and its high four bits.
#[inline(always)]
pub fn looked_up(c: u8, low: u8x32, high: u8x32, block: u8x32) -> u8x32
    requires { AreProducts c low high }
    ensures { HasLanes result (λ k. product c (slice_index block k)) }
{
    let low = low.swizzle_dyn_within::<16>(block & u8x32::splat(15));
    let high = high.swizzle_dyn_within::<16>(block >> u8x32::splat(4));
    low ^ high
}

/// The products of a constant with the numbers of a block, by doubling for the constant `SMALL`, or by looking up where
/// that is 0.
#[inline(always)]
pub fn products<const SMALL: u8>(c: u8, low: u8x32, high: u8x32, block: u8x32) -> u8x32
    requires small { 1 ≤ SMALL → SMALL ≡ c }
    requires rows { AreProducts c low high }
    ensures { HasLanes result (λ k. product c (slice_index block k)) }
{
    if SMALL == 1 {
        block
    } else if SMALL == 2 {
        doubles(block)
    } else if SMALL == 3 {
        sums(block, doubles(block))
    } else {
        looked_up(c, low, high, block)
    }
}
