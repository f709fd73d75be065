//! What the contracts don't say: that calls succeed, and that the definitions mean a map, on commands worked out by hand.
use super::*;
use craft_base::Op;
use entry_frames::{EntryView, OpKind};
use std::alloc::Global;
use std::test::Fail;

/// A command in short: its operation, its client, its number, and the only byte of its key.
type Row = (Op, u64, u64, u8);

const NOOP: Row = (Op::Noop, 0, 0, 0);

/// Adds the bytes of an entry of term 1 that asks for this, with an empty value.
fn add_entry(bytes: &mut Vec<u8>, op: Op, client: u64, seq: u64, key: &[u8]) -> Result<(), Fail> {
    add_entry_with(bytes, op, client, seq, key, &[])
}

/// The same, with the value that is to be set, where one is.
fn add_entry_with(
    bytes: &mut Vec<u8>,
    op: Op,
    client: u64,
    seq: u64,
    key: &[u8],
    value: &[u8],
) -> Result<(), Fail> {
    let (byte, expected) = match op {
        Op::Noop => (0, None),
        Op::Put => (1, None),
        Op::PutIf(version) => (2, Some(version)),
        Op::Del => (3, None),
        Op::Get => (4, None),
    };
    bytes.extend_from_slice(&[1, byte])?;
    bytes.extend_from_slice(&1_u64.to_be_bytes())?;
    bytes.extend_from_slice(&client.to_be_bytes())?;
    bytes.extend_from_slice(&seq.to_be_bytes())?;
    if let Some(version) = expected {
        bytes.extend_from_slice(&version.to_be_bytes())?;
    }
    bytes.push(u8::try_from(key.len()).ok().ok_or("a long key")?)?;
    bytes.extend_from_slice(key)?;
    if OpKind::of(op).sets() {
        let len = u32::try_from(value.len()).ok().ok_or("a long value")?;
        bytes.extend_from_slice(&len.to_be_bytes())?;
        bytes.extend_from_slice(value)?;
    }
    Ok(())
}

/// The bytes of such entries.
fn bytes_of(alloc: Global, rows: &[Row]) -> Result<Vec<u8>, Fail> {
    let mut bytes = Vec::new(alloc);
    for (op, client, seq, key) in rows {
        if *client == 0 {
            add_entry(&mut bytes, *op, 0, 0, &[])?;
        } else {
            add_entry(&mut bytes, *op, *client, *seq, &[*key])?;
        }
    }
    Ok(bytes)
}

/// A service after the entries of these bytes, at most 600, and what each came to.
fn applied(alloc: Global, bytes: &[u8]) -> Result<(Service, Vec<Outcome>), Fail> {
    let mut service = Service::new(alloc);
    let mut outcomes = Vec::new(alloc);
    let mut rest = bytes;
    for before in 0..600 {
        if rest.is_empty() {
            break;
        }
        let (view, len) = EntryView::read(1, rest)?;
        let (next, outcome) = service.apply(before + 1, &view)?;
        service = next;
        outcomes.push(outcome)?;
        rest = rest.get(len..).ok_or("no rest")?;
    }
    Ok((service, outcomes))
}

/// What commands come to, one after the other.
fn outcomes_of(alloc: Global, rows: &[Row]) -> Result<Vec<Outcome>, Fail> {
    let bytes = bytes_of(alloc, rows)?;
    let (_service, outcomes) = applied(alloc, &bytes)?;
    Ok(outcomes)
}

// Client 7 puts and gets; then the two come again, and a number from before.
#[test]
fn a_repeated_command_is_answered_as_the_first_time(rt: HostRuntime) -> Result<(), Fail> {
    let rows = [
        NOOP,
        (Op::Put, 7, 1, 97),
        (Op::Put, 7, 1, 97),
        (Op::Get, 7, 2, 97),
        (Op::Put, 8, 1, 97),
        (Op::Get, 7, 2, 97),
        (Op::Put, 7, 1, 97),
        (Op::Get, 9, 1, 97),
    ];
    let outcomes = outcomes_of(rt.alloc(), &rows)?;
    let wanted = [
        Outcome::Nothing,
        Outcome::Done(2),
        Outcome::Done(2),
        Outcome::Found(2),
        Outcome::Done(5),
        Outcome::Found(2),
        Outcome::Old,
        Outcome::Found(5),
    ];
    assert_eq!(rt; outcomes.as_slice(), wanted.as_slice());
    Ok(())
}

// The second and the third have the number of the first, and are other commands: they aren't carried out.
#[test]
fn one_number_takes_effect_once(rt: HostRuntime) -> Result<(), Fail> {
    let rows = [
        (Op::Put, 7, 3, 97),
        (Op::Del, 7, 3, 97),
        (Op::Put, 7, 3, 98),
        (Op::Get, 8, 1, 98),
        (Op::Get, 8, 2, 97),
        (Op::Put, 7, 2, 97),
        (Op::Get, 8, 2, 98),
    ];
    let outcomes = outcomes_of(rt.alloc(), &rows)?;
    let wanted = [
        Outcome::Done(1),
        Outcome::Done(1),
        Outcome::Done(1),
        Outcome::Nothing,
        Outcome::Found(1),
        Outcome::Old,
        Outcome::Found(1),
    ];
    assert_eq!(rt; outcomes.as_slice(), wanted.as_slice());
    Ok(())
}

// A client gives one number to two values: the second is answered as the first, and what was set stays.
#[test]
fn one_number_sets_one_value(rt: HostRuntime) -> Result<(), Fail> {
    let alloc = rt.alloc();
    let mut bytes = Vec::new(alloc);
    add_entry_with(&mut bytes, Op::Put, 7, 3, b"a", b"x")?;
    add_entry_with(&mut bytes, Op::Put, 7, 3, b"a", b"yy")?;
    add_entry(&mut bytes, Op::Get, 8, 1, b"a")?;
    let (_service, outcomes) = applied(alloc, &bytes)?;
    let wanted = [Outcome::Done(1), Outcome::Done(1), Outcome::Found(1)];
    assert_eq!(rt; outcomes.as_slice(), wanted.as_slice());
    Ok(())
}

#[test]
fn a_conditional_put_asks_for_the_present_version(rt: HostRuntime) -> Result<(), Fail> {
    let rows = [
        (Op::PutIf(1), 7, 1, 97),
        (Op::PutIf(0), 7, 2, 97),
        (Op::PutIf(0), 7, 3, 97),
        (Op::PutIf(2), 7, 4, 97),
        (Op::PutIf(2), 7, 5, 97),
        (Op::PutIf(6), 7, 6, 97),
        (Op::PutIf(0), 7, 7, 98),
        (Op::Get, 7, 8, 97),
    ];
    let outcomes = outcomes_of(rt.alloc(), &rows)?;
    let wanted = [
        Outcome::Differs(0),
        Outcome::Done(2),
        Outcome::Differs(2),
        Outcome::Done(4),
        Outcome::Differs(4),
        Outcome::Differs(4),
        Outcome::Done(7),
        Outcome::Found(4),
    ];
    assert_eq!(rt; outcomes.as_slice(), wanted.as_slice());
    Ok(())
}

#[test]
fn what_is_deleted_is_absent(rt: HostRuntime) -> Result<(), Fail> {
    let rows = [
        (Op::Del, 7, 1, 97),
        (Op::Put, 7, 2, 97),
        (Op::Put, 7, 3, 98),
        (Op::Del, 7, 4, 97),
        (Op::Del, 7, 5, 97),
        (Op::Get, 7, 6, 97),
        (Op::PutIf(2), 7, 7, 97),
        (Op::PutIf(0), 7, 8, 97),
        (Op::Get, 7, 9, 98),
    ];
    let outcomes = outcomes_of(rt.alloc(), &rows)?;
    let wanted = [
        Outcome::Gone(false),
        Outcome::Done(2),
        Outcome::Done(3),
        Outcome::Gone(true),
        Outcome::Gone(false),
        Outcome::Nothing,
        Outcome::Differs(0),
        Outcome::Done(8),
        Outcome::Found(3),
    ];
    assert_eq!(rt; outcomes.as_slice(), wanted.as_slice());
    Ok(())
}

#[test]
fn the_greatest_number_of_a_client_is_kept(rt: HostRuntime) -> Result<(), Fail> {
    let alloc = rt.alloc();
    let greatest = 1 << 62;
    let rows = [
        NOOP,
        (Op::Put, 7, 4, 97),
        (Op::Get, 7, greatest, 97),
        (Op::Del, greatest, 1, 97),
        (Op::Get, 7, 4, 97),
    ];
    let bytes = bytes_of(alloc, &rows)?;
    let (service, _) = applied(alloc, &bytes)?;
    assert_eq!(rt; service.kept(7, greatest), Kept::Same(Outcome::Found(2)));
    assert_eq!(rt; service.kept(7, 4), Kept::Old);
    assert_eq!(rt; service.kept(7, greatest + 1), Kept::New);
    assert_eq!(rt; service.kept(greatest, 1), Kept::Same(Outcome::Gone(true)));
    assert_eq!(rt; service.kept(greatest, 2), Kept::New);
    assert_eq!(rt; service.kept(6, 1), Kept::New);
    assert_eq!(rt; service.kept(0, 0), Kept::New);
    Ok(())
}

#[test]
fn each_byte_is_a_key(rt: HostRuntime) -> Result<(), Fail> {
    let alloc = rt.alloc();
    let mut bytes = Vec::new(alloc);
    for byte in 0..=255_u8 {
        add_entry(&mut bytes, Op::Put, 1, u64::from(byte) + 1, &[byte])?;
    }
    for byte in 0..=255_u8 {
        add_entry(&mut bytes, Op::Get, 2, u64::from(byte) + 1, &[byte])?;
    }
    let (_service, outcomes) = applied(alloc, &bytes)?;
    for byte in 0..256_usize {
        let version = byte as u64 + 1;
        assert_eq!(rt; outcomes.get(byte).copied(), Some(Outcome::Done(version)));
        assert_eq!(rt;
            outcomes.get(256 + byte).copied(),
            Some(Outcome::Found(version))
        );
    }
    assert_eq!(rt; outcomes.len(), 512);
    Ok(())
}

/// A key of 255 bytes: those from 0 to 253, and then that one.
fn long_key(alloc: Global, last: u8) -> Result<Vec<u8>, Fail> {
    let mut key = Vec::new(alloc);
    for byte in 0..254_u8 {
        key.push(byte)?;
    }
    key.push(last)?;
    Ok(key)
}

// Two keys of 255 bytes that differ in the last, and the front of both.
#[test]
fn long_keys_are_told_apart_by_each_byte(rt: HostRuntime) -> Result<(), Fail> {
    let alloc = rt.alloc();
    let one = long_key(alloc, 254)?;
    let other = long_key(alloc, 255)?;
    let front = one.get(..254).ok_or("no front")?;
    let mut bytes = Vec::new(alloc);
    add_entry(&mut bytes, Op::Put, 1, 1, front)?;
    add_entry(&mut bytes, Op::Put, 1, 2, &one)?;
    add_entry(&mut bytes, Op::Get, 1, 3, &other)?;
    add_entry(&mut bytes, Op::Put, 1, 4, &other)?;
    add_entry(&mut bytes, Op::Get, 2, 1, front)?;
    add_entry(&mut bytes, Op::Get, 2, 2, &one)?;
    add_entry(&mut bytes, Op::Get, 2, 3, &other)?;
    let (_service, outcomes) = applied(alloc, &bytes)?;
    let wanted = [
        Outcome::Done(1),
        Outcome::Done(2),
        Outcome::Nothing,
        Outcome::Done(4),
        Outcome::Found(1),
        Outcome::Found(2),
        Outcome::Found(4),
    ];
    assert_eq!(rt; outcomes.as_slice(), wanted.as_slice());
    Ok(())
}
