ghost use Rattle.std.specs.Prelude.{◌≡◌, ◌≤◌, length, slice_index, EachIndex, bit_xor};
ghost use Rattle.gf_lanes.specs.Field.{product};

use crate::field::gf_mul;
use crate::lanes::{load, looked_up, products, products_of, store, sums};

/// Adds `c` times each number of `src` to the number of `dst` at the same place.
pub fn mul_add(dst: &mut [u8], src: &[u8], c: u8)
    requires { length dst.old ≡ length src.now }
    ensures { EachIndex dst.new (λ p.
        slice_index dst.new p ≡ bit_xor (slice_index dst.old p) (product c (slice_index src.now p))) }
{
    match c {
        1 => mul_add_by::<1>(dst, src, c),
        2 => mul_add_by::<2>(dst, src, c),
        3 => mul_add_by::<3>(dst, src, c),
        _ => mul_add_by::<0>(dst, src, c),
    }
}

/// Replaces each number of `dst` by `c` times that number.
pub fn scale(dst: &mut [u8], c: u8)
    ensures { EachIndex dst.new (λ p. slice_index dst.new p ≡ product c (slice_index dst.old p)) }
{
    let (low, high) = products_of(c);
    let blocks = dst.len() / 32;
    for block in 0..blocks {
        let at = block * 32;
        let numbers = load(dst, at);
        store(looked_up(c, low, high, numbers), dst, at);
    }
    for p in blocks * 32..dst.len() {
        dst[p] = gf_mul(c, dst[p]);
    }
}

/// Replaces each number of `dst` by `c` times that number, plus the number of `src` at the same place.
pub fn scale_add(dst: &mut [u8], src: &[u8], c: u8)
    requires { length dst.old ≡ length src.now }
    ensures { EachIndex dst.new (λ p.
        slice_index dst.new p ≡ bit_xor (product c (slice_index dst.old p)) (slice_index src.now p)) }
{
    match c {
        1 => scale_add_by::<1>(dst, src, c),
        2 => scale_add_by::<2>(dst, src, c),
        3 => scale_add_by::<3>(dst, src, c),
        _ => scale_add_by::<0>(dst, src, c),
    }
}

/// Writes `c` times each number of `src`, plus the number of `added` at the same place, to that place of `dst`.
pub fn scale_add_to(dst: &mut [u8], src: &[u8], added: &[u8], c: u8)
    requires scaled { length dst.old ≡ length src.now }
    requires added { length dst.old ≡ length added.now }
    ensures { EachIndex dst.new (λ p.
        slice_index dst.new p ≡ bit_xor (product c (slice_index src.now p)) (slice_index added.now p)) }
{
    match c {
        1 => scale_add_to_by::<1>(dst, src, added, c),
        2 => scale_add_to_by::<2>(dst, src, added, c),
        3 => scale_add_to_by::<3>(dst, src, added, c),
        _ => scale_add_to_by::<0>(dst, src, added, c),
    }
}

/// `mul_add` for the constant `SMALL`, or for each where that is 0.
#[inline(always)]
fn mul_add_by<const SMALL: u8>(dst: &mut [u8], src: &[u8], c: u8)
    requires same_length { length dst.old ≡ length src.now }
    requires small { 1 ≤ SMALL → SMALL ≡ c }
    ensures { EachIndex dst.new (λ p.
        slice_index dst.new p ≡ bit_xor (slice_index dst.old p) (product c (slice_index src.now p))) }
{
    let (low, high) = products_of(c);
    let blocks = src.len() / 32;
    for block in 0..blocks {
        let at = block * 32;
        let added = products::<SMALL>(c, low, high, load(src, at));
        let old = load(dst, at);
        store(sums(old, added), dst, at);
    }
    for p in blocks * 32..src.len() {
        dst[p] ^= gf_mul(c, src[p]);
    }
}

/// `scale_add` for the constant `SMALL`, or for each where that is 0.
#[inline(always)]
fn scale_add_by<const SMALL: u8>(dst: &mut [u8], src: &[u8], c: u8)
    requires same_length { length dst.old ≡ length src.now }
    requires small { 1 ≤ SMALL → SMALL ≡ c }
    ensures { EachIndex dst.new (λ p.
        slice_index dst.new p ≡ bit_xor (product c (slice_index dst.old p)) (slice_index src.now p)) }
{
    let (low, high) = products_of(c);
    let blocks = src.len() / 32;
    for block in 0..blocks {
        let at = block * 32;
        let scaled = products::<SMALL>(c, low, high, load(dst, at));
        let added = load(src, at);
        store(sums(scaled, added), dst, at);
    }
    for p in blocks * 32..src.len() {
        dst[p] = gf_mul(c, dst[p]) ^ src[p];
    }
}

/// `scale_add_to` for the constant `SMALL`, or for each where that is 0.
#[inline(always)]
fn scale_add_to_by<const SMALL: u8>(dst: &mut [u8], src: &[u8], added: &[u8], c: u8)
    requires scaled { length dst.old ≡ length src.now }
    requires added { length dst.old ≡ length added.now }
    requires small { 1 ≤ SMALL → SMALL ≡ c }
    ensures { EachIndex dst.new (λ p.
        slice_index dst.new p ≡ bit_xor (product c (slice_index src.now p)) (slice_index added.now p)) }
{
    let (low, high) = products_of(c);
    let blocks = src.len() / 32;
    for block in 0..blocks {
        let at = block * 32;
        let scaled = products::<SMALL>(c, low, high, load(src, at));
        store(sums(scaled, load(added, at)), dst, at);
    }
    for p in blocks * 32..src.len() {
        dst[p] = gf_mul(c, src[p]) ^ added[p];
    }
}

#[cfg(test)]
mod tests {
    use super::*;
    use crate::gf_mul;
    use std::test::Fail;

    // Lengths about the width of a lane and of two.
    const LENGTHS: [usize; 7] = [0, 1, 31, 32, 33, 64, 65];

    // Every constant, against the product number by number.
    #[test]
    fn kernels_multiply_each_number(rt: HostRuntime) -> Result<(), Fail> {
        for length in LENGTHS {
            for c in 0..=u8::MAX {
                let mut sums = Vec::new(rt.alloc());
                let mut numbers = Vec::new(rt.alloc());
                for place in 0..length as u8 {
                    sums.push(place.wrapping_mul(29).wrapping_add(c))?;
                    numbers.push(place.wrapping_mul(151).wrapping_add(90))?;
                }
                let before = sums.clone()?;
                assert_eq!(rt; sums.len(), numbers.len());
                mul_add(&mut sums, &numbers, c);
                for ((sum, old), number) in sums.iter().zip(&before).zip(&numbers) {
                    assert_eq!(rt; *sum, *old ^ gf_mul(c, *number), "{c} at length {length}");
                }
                let mut scaled = numbers.clone()?;
                scale(&mut scaled, c);
                for (product, number) in scaled.iter().zip(&numbers) {
                    assert_eq!(rt; *product, gf_mul(c, *number), "{c} at length {length}");
                }
                let mut written = before.clone()?;
                assert!(rt; written.len() == numbers.len() && written.len() == before.len());
                scale_add_to(&mut written, &numbers, &before, c);
                for ((sum, added), number) in written.iter().zip(&before).zip(&numbers) {
                    assert_eq!(rt; *sum, gf_mul(c, *number) ^ *added, "{c} at length {length}");
                }
                let mut stepped = before.clone()?;
                assert_eq!(rt; stepped.len(), numbers.len());
                scale_add(&mut stepped, &numbers, c);
                for ((sum, old), number) in stepped.iter().zip(&before).zip(&numbers) {
                    assert_eq!(rt; *sum, gf_mul(c, *old) ^ *number, "{c} at length {length}");
                }
            }
        }
        Ok(())
    }
}
