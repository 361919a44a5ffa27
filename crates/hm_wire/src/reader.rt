ghost use Rattle.std.specs.Prelude.{◌≡◌, ◌+◌, ◌<◌, ◌^◌, length};
ghost use Rattle.hm_wire.specs.Wire.{Reads, number_at, text_at};

use crate::fault::WireFault;
use byteorder::{ByteOrder, LittleEndian};
use std::marker::Model;

/// Reads fields from the front of bytes. Contracts see what is left and the place of its first byte. A call that fails
/// reads nothing.
#[derive(Debug, Drop)]
pub struct Reader<'a> {
    rest: &'a [u8],
    at: u64,
}

impl<'a> Model for Reader<'a> {
    ghost use Rattle.std.specs.Prelude.{◌+◌, ◌<◌, ◌^◌, length};
    ghost use Rattle.hm_wire.specs.Input.{Input};

    ghost Value = { Input };

    ghost view = { λ s. record { at = s.at; rest = s.rest.now } };

    ghost invariant = { λ s. s.at + length s.rest.now < 2 ^ 64 };
}

impl<'a> Reader<'a> {
    /// A reader of these bytes, from place 0.
    pub fn new(bytes: &'a [u8]) -> Reader<'a>
        ensures { result ≡ record { at = 0; rest = bytes.now } }
    {
        Reader { rest: bytes, at: 0 }
    }

    /// The place of the next byte.
    pub fn at(&self) -> u64
        ensures { result ≡ self.now.at }
    {
        self.at
    }

    /// How many bytes are left.
    pub fn left(&self) -> u64
        ensures { result ≡ length self.now.rest }
    {
        self.rest.len() as u64
    }

    /// The next byte.
    pub fn byte(&mut self) -> Result<u8, WireFault>
        ensures { Reads (λ x. x) result self.old (number_at 1 self.old) self.new }
    {
        match self.rest {
            [] => Err(WireFault::Short(self.at)),
            [first, rest @ ..] => {
                self.rest = rest;
                self.at += 1;
                Ok(*first)
            }
        }
    }

    /// The next number of two bytes, the lowest first.
    pub fn u16(&mut self) -> Result<u16, WireFault>
        ensures { Reads (λ x. x) result self.old (number_at 2 self.old) self.new }
    {
        if self.rest.len() < 2 {
            return Err(WireFault::Short(self.at));
        }
        let value = LittleEndian::read_u16(self.rest);
        self.rest = &self.rest[2..];
        self.at += 2;
        Ok(value)
    }

    /// The next number of four bytes, the lowest first.
    pub fn u32(&mut self) -> Result<u32, WireFault>
        ensures { Reads (λ x. x) result self.old (number_at 4 self.old) self.new }
    {
        if self.rest.len() < 4 {
            return Err(WireFault::Short(self.at));
        }
        let value = LittleEndian::read_u32(self.rest);
        self.rest = &self.rest[4..];
        self.at += 4;
        Ok(value)
    }

    /// The next number of eight bytes, the lowest first.
    pub fn u64(&mut self) -> Result<u64, WireFault>
        ensures { Reads (λ x. x) result self.old (number_at 8 self.old) self.new }
    {
        if self.rest.len() < 8 {
            return Err(WireFault::Short(self.at));
        }
        let value = LittleEndian::read_u64(self.rest);
        self.rest = &self.rest[8..];
        self.at += 8;
        Ok(value)
    }

    /// The next text: a number of two bytes and as many bytes. A text that runs past the end is `Short`, and else one
    /// of more than `most` bytes is `Range`.
    pub fn text(&mut self, most: u16) -> Result<&'a [u8], WireFault>
        ensures { Reads (λ x. x.now) result self.old (text_at most self.old) self.new }
    {
        let at = self.at;
        if self.rest.len() < 2 {
            return Err(WireFault::Short(at));
        }
        let len = LittleEndian::read_u16(self.rest);
        let behind = &self.rest[2..];
        if behind.len() < len as usize {
            return Err(WireFault::Short(at));
        }
        if most < len {
            return Err(WireFault::Range(at));
        }
        let (text, rest) = behind.split_at(len as usize);
        self.rest = rest;
        self.at += 2 + len as u64;
        Ok(text)
    }
}
