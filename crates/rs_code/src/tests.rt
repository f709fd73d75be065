ghost use Rattle.std.specs.Prelude.{◌≡◌, ◌≤◌, IfOk, length, vec_len};
ghost use Rattle.craft_base.specs.Parts.{part_length};

use super::*;
use craft_base::part_len;
use std::alloc::{AllocError, Global};
use std::process::Abort;
use std::test::Fail;

/// A value's fragment for a member.
fn part_of(alloc: Global, value: &[u8], k: u8, member: u8) -> Result<Vec<u8>, AllocError>
    requires some_need { 1 ≤ k }
    requires most_need { k ≤ 8 }
    requires in_group { member ≤ 14 }
    ensures { IfOk result (λ part. vec_len part ≡ part_length (length value.now) k) }
{
    let mut part = vec![in alloc; 0; part_len(value.len(), k)]?;
    part_into(value, k, member, &mut part);
    Ok(part)
}

/// The value rebuilt from the fragments of k members, from `first` on, 0 after 14.
fn rebuilt(rt: &impl Abort, alloc: Global, value: &[u8], k: u8, first: u8) -> Result<Vec<u8>, Fail>
    requires some_need { 1 ≤ k }
    requires most_need { k ≤ 8 }
    requires in_group { first ≤ 14 }
    requires small { length value.now ≤ 32768 }
{
    let mut rebuilder = Rebuilder::new(alloc, k, value.len())?;
    for i in 0..k {
        let member = (first + i) % 15;
        let part = part_of(alloc, value, k, member)?;
        assert_eq!(rt; rebuilder.add(member, &part), Added::Taken);
    }
    assert_eq!(rt; rebuilder.count(), k);
    let mut out = vec![in alloc; 0xee; value.len()]?;
    rebuilder.write(&mut out);
    Ok(out)
}

// By hand: coefficients 1 and 2 give 1 + 2x at the points 1, 2 and 3; twice 0x80 is 0x1d; a need of 1 copies.
#[test]
fn parts_of_short_values(rt: HostRuntime) -> Result<(), Fail> {
    let cases: [(&[u8], u8, [&[u8]; 3]); 4] = [
        (&[1, 2], 2, [&[3], &[5], &[7]]),
        (&[0, 0x80], 2, [&[0x80], &[0x1d], &[0x9d]]),
        (&[], 2, [&[], &[], &[]]),
        (
            &[0x61, 0x62],
            1,
            [&[0x61, 0x62], &[0x61, 0x62], &[0x61, 0x62]],
        ),
    ];
    for (value, k, parts) in &cases {
        let alloc = rt.alloc();
        assert!(rt; 1 <= *k && *k <= 8);
        for (member, part) in parts.iter().enumerate() {
            let made = part_of(alloc, value, *k, member as u8)?;
            assert_eq!(rt; made.as_slice(), *part, "part {member}");
        }
    }
    Ok(())
}

// The last piece of an odd length ends in a 0.
#[test]
fn parts_of_65_bytes(rt: HostRuntime) -> Result<(), Fail> {
    let alloc = rt.alloc();
    let mut value = Vec::new(alloc);
    for byte in 0..65u8 {
        value.push(byte)?;
    }
    let cases = [
        (0, 0, 0x21),
        (0, 31, 0x5f),
        (0, 32, 0x20),
        (1, 0, 0x42),
        (1, 31, 0x9f),
        (1, 32, 0x20),
        (2, 31, 0xdf),
    ];
    for (member, place, byte) in cases {
        let part = part_of(alloc, &value, 2, member)?;
        assert_eq!(rt; part.len(), 33);
        assert_eq!(rt; part[place], byte, "part {member} at {place}");
    }
    Ok(())
}

#[test]
fn each_rotation_rebuilds(rt: HostRuntime) -> Result<(), Fail> {
    let alloc = rt.alloc();
    for k in 1..=8u8 {
        let need = usize::from(k);
        for length in [0, 1, need - 1, need, need + 1, 1000] {
            let mut value = Vec::new(alloc);
            for i in 0..length {
                value.push((i * 167 % 251) as u8)?;
            }
            assert!(rt; value.len() <= 32768);
            for first in 0..15 {
                let out = rebuilt(&rt, alloc, &value, k, first)?;
                assert_eq!(rt;
                    out.as_slice(),
                    value.as_slice(),
                    "{k} parts from member {first}"
                );
            }
        }
    }
    Ok(())
}

// A part that was taken, and one past those that are needed, change nothing.
#[test]
fn parts_are_known_and_enough(rt: HostRuntime) -> Result<(), Fail> {
    let mut rebuilder = Rebuilder::new(rt.alloc(), 2, 2)?;
    assert_eq!(rt; rebuilder.add(1, &[0x1d]), Added::Taken);
    assert_eq!(rt; rebuilder.add(1, &[0xff]), Added::Known);
    assert_eq!(rt; rebuilder.count(), 1);
    assert_eq!(rt; rebuilder.add(2, &[0x9d]), Added::Taken);
    assert_eq!(rt; rebuilder.add(0, &[0xff]), Added::Enough);
    assert_eq!(rt; rebuilder.add(2, &[0xff]), Added::Known);
    assert_eq!(rt; rebuilder.count(), 2);
    let mut out = [0xee; 2];
    rebuilder.write(&mut out);
    assert_eq!(rt; out, [0, 0x80]);
    Ok(())
}
