//! Keys and values of each length and byte, from a put to a get.
use super::asking::{answered, call, leading, matched};
use crate::Output;
use craft_base::{Op, Reply};
use std::alloc::Global;
use std::process::Abort;
use std::test::Fail;

/// The bytes from 0 on, again and again, so many.
fn pattern(alloc: Global, len: usize) -> Result<Vec<u8>, Fail> {
    let mut bytes = Vec::new(alloc);
    for at in 0..len {
        bytes.push((at % 256) as u8)?;
    }
    Ok(bytes)
}

#[test]
fn each_byte_is_a_key(rt: HostRuntime) -> Result<(), Fail> {
    let alloc = rt.alloc();
    let mut core = leading(alloc)?;
    for byte in 0..=255_u8 {
        let version = u64::from(byte) + 2;
        let seq = version;
        let (next, told) = answered(alloc, core, (seq, Op::Put, &[byte], &[byte]))?;
        core = next;
        assert_eq!(rt;
            told.as_str(),
            format!(in alloc; "reply 5 7 {seq} done {version}")?.as_str()
        );
    }
    for byte in 0..=255_u8 {
        let version = u64::from(byte) + 2;
        let seq = version + 256;
        let (next, told) = answered(alloc, core, (seq, Op::Get, &[byte], &[]))?;
        core = next;
        let want = format!(in alloc; "reply 5 7 {seq} value {version} [{byte}]")?;
        assert_eq!(rt; told.as_str(), want.as_str());
    }
    Ok(())
}

// Two keys of 255 bytes that differ in the last one.
#[test]
fn long_keys_are_told_apart(rt: HostRuntime) -> Result<(), Fail> {
    let alloc = rt.alloc();
    let one = pattern(alloc, 255)?;
    let mut other = pattern(alloc, 254)?;
    other.push(255)?;
    let (core, _told) = answered(alloc, leading(alloc)?, (1, Op::Put, &one, b"x"))?;
    let (core, told) = answered(alloc, core, (2, Op::Get, &other, b""))?;
    assert_eq!(rt; told.as_str(), "reply 5 7 2 nothing");
    let (core, told) = answered(alloc, core, (3, Op::Put, &other, b"y"))?;
    assert_eq!(rt; told.as_str(), "reply 5 7 3 done 4");
    let (_core, told) = answered(alloc, core, (4, Op::Get, &one, b""))?;
    assert_eq!(rt; told.as_str(), "reply 5 7 4 value 2 [120]");
    Ok(())
}

/// The member tells client 7 this value, of that version.
fn tells_value(
    rt: &impl Abort,
    outputs: &[Output],
    version: u64,
    value: &[u8],
) -> Result<(), Fail> {
    let Some(Output::Reply { reply, .. }) = outputs.last() else {
        return Err("no reply".into());
    };
    let Reply::Value(at, bytes) = reply else {
        return Err("no value".into());
    };
    assert_eq!(rt; *at, version);
    assert_eq!(rt; bytes.as_bytes(), value);
    Ok(())
}

#[test]
fn the_longest_value_is_put_and_read(rt: HostRuntime) -> Result<(), Fail> {
    let alloc = rt.alloc();
    let value = pattern(alloc, 32_768)?;
    let (core, told) = answered(alloc, leading(alloc)?, (1, Op::Put, b"a", &value))?;
    assert_eq!(rt; told.as_str(), "reply 5 7 1 done 2");
    let (core, _turned) = call(alloc, core, (2, Op::Get, b"a", b""))?;
    let (_core, turned) = matched(alloc, core, 1, 2, 1)?;
    tells_value(&rt, &turned.outputs, 2, &value)
}
