//! Reading a frame field by field, from left to right.
ghost use Rattle.std.specs.Prelude.{◌≡◌, ◌≤◌, true};
ghost use Rattle.entry_frames.specs.Formats.{AreBytes, U8, U32, U64, within, front_of, number_at, bytes_at, test_at};
ghost use Rattle.entry_frames.specs.Steps.{Reads, Tests};

use crate::fault::FrameFault;
use std::marker::Model;

/// What is left of a frame, and at which offset of it that begins. Each call reads one field: it fails where the bytes end
/// inside it or it is out of range, and is then of no more use.
#[derive(Drop)]
pub struct Fields<'a> {
    at: usize,
    rest: &'a [u8],
}

impl<'a> Model for Fields<'a> {
    ghost use Rattle.entry_frames.specs.Formats.{Cursor, IsCursor};

    ghost Value = { Cursor };

    ghost view = { λ fields. record { at = fields.at; rest = fields.rest.now } };

    ghost invariant = { λ fields. IsCursor (record { at = fields.at; rest = fields.rest.now }) };
}

impl<'a> Fields<'a> {
    /// The front of a frame.
    pub fn of(bytes: &'a [u8]) -> Fields<'a>
        ensures { result ≡ front_of bytes.now }
    {
        Fields { at: 0, rest: bytes }
    }

    /// The offset at which the rest begins.
    pub fn at(&self) -> usize
        ensures { result ≡ self.now.at }
    {
        self.at
    }

    /// What is left.
    pub fn rest(&self) -> &'a [u8]
        ensures value { result.now ≡ self.now.rest }
        ensures bytes { AreBytes self.now.rest }
    {
        self.rest
    }

    /// A number of one byte, from `least` to `greatest`.
    pub fn byte(&mut self, least: u8, greatest: u8) -> Result<u8, FrameFault>
        ensures { Reads (λ n. n) result self.new (number_at true U8 (within least greatest) self.old) }
    {
        let [number, rest @ ..] = self.rest else {
            return Err(FrameFault::Short);
        };
        if !(least..=greatest).contains(number) {
            return Err(FrameFault::Bad(self.at));
        }
        self.at += 1;
        self.rest = rest;
        Ok(*number)
    }

    /// A number of four bytes, from `least` to `greatest`.
    pub fn u32(&mut self, least: u32, greatest: u32) -> Result<u32, FrameFault>
        ensures { Reads (λ n. n) result self.new (number_at true U32 (within least greatest) self.old) }
    {
        if self.rest.len() < 4 {
            return Err(FrameFault::Short);
        }
        let (front, rest) = self.rest.split_at(4);
        let number = u32::from_be_bytes([front[0], front[1], front[2], front[3]]);
        if number < least || number > greatest {
            return Err(FrameFault::Bad(self.at));
        }
        self.at += 4;
        self.rest = rest;
        Ok(number)
    }

    /// A number of eight bytes, from `least` to `greatest`.
    pub fn u64(&mut self, least: u64, greatest: u64) -> Result<u64, FrameFault>
        ensures { Reads (λ n. n) result self.new (number_at true U64 (within least greatest) self.old) }
    {
        if self.rest.len() < 8 {
            return Err(FrameFault::Short);
        }
        let (front, rest) = self.rest.split_at(8);
        let number = u64::from_be_bytes([
            front[0], front[1], front[2], front[3], front[4], front[5], front[6], front[7],
        ]);
        if number < least || number > greatest {
            return Err(FrameFault::Bad(self.at));
        }
        self.at += 8;
        self.rest = rest;
        Ok(number)
    }

    /// A number of four bytes up to `greatest`, or 0 and no bytes where it doesn't stand.
    pub fn u32_if(&mut self, stands: bool, least: u32, greatest: u32) -> Result<u32, FrameFault>
        ensures { Reads (λ n. n) result self.new (number_at stands U32 (within least greatest) self.old) }
    {
        if stands {
            self.u32(least, greatest)
        } else {
            Ok(0)
        }
    }

    /// A number of eight bytes up to `greatest`, or 0 and no bytes where it doesn't stand.
    pub fn u64_if(&mut self, stands: bool, least: u64, greatest: u64) -> Result<u64, FrameFault>
        ensures { Reads (λ n. n) result self.new (number_at stands U64 (within least greatest) self.old) }
    {
        if stands {
            self.u64(least, greatest)
        } else {
            Ok(0)
        }
    }

    /// That many bytes, whatever they are.
    pub fn bytes(&mut self, count: usize) -> Result<&'a [u8], FrameFault>
        ensures { Reads (λ bytes. bytes.now) result self.new (bytes_at count self.old) }
    {
        if self.rest.len() < count {
            return Err(FrameFault::Short);
        }
        let (bytes, rest) = self.rest.split_at(count);
        self.at += count;
        self.rest = rest;
        Ok(bytes)
    }

    /// A test of the fields before: where it fails, what is out of range began `back` bytes before.
    pub fn test(&self, passes: bool, back: usize) -> Result<(), FrameFault>
        requires { back ≤ self.now.at }
        ensures { Tests result self.now (test_at passes back self.now) }
    {
        if passes {
            Ok(())
        } else {
            Err(FrameFault::Bad(self.at - back))
        }
    }
}
