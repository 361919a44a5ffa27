ghost use Rattle.std.specs.Prelude.{◌+◌, ◌<◌, ◌^◌, length, [], ◌∷◌};
ghost use Rattle.byteorder.specs.Endian.{little_bytes};
ghost use Rattle.hm_wire.specs.Room.{HasRoom, Puts};
ghost use Rattle.hm_wire.specs.Wire.{text as text_of};

use byteorder::{ByteOrder, LittleEndian};

fn put_bytes(out: &mut Vec<u8>, bytes: &[u8])
    requires { HasRoom out.old (length bytes.now) }
    ensures { Puts out.old bytes.now out.new }
{
    for byte in bytes {
        out.push_reserved(*byte);
    }
}

/// Appends a byte. No memory is taken.
pub fn put_byte(out: &mut Vec<u8>, value: u8)
    requires { HasRoom out.old 1 }
    ensures { Puts out.old (value ∷ []) out.new }
{
    put_bytes(out, &[value]);
}

/// Appends a number in two bytes, the lowest first. No memory is taken.
pub fn put_u16(out: &mut Vec<u8>, value: u16)
    requires { HasRoom out.old 2 }
    ensures { Puts out.old (little_bytes 2 value) out.new }
{
    let mut bytes = [0; 2];
    LittleEndian::write_u16(&mut bytes, value);
    put_bytes(out, &bytes);
}

/// Appends a number in four bytes, the lowest first. No memory is taken.
pub fn put_u32(out: &mut Vec<u8>, value: u32)
    requires { HasRoom out.old 4 }
    ensures { Puts out.old (little_bytes 4 value) out.new }
{
    let mut bytes = [0; 4];
    LittleEndian::write_u32(&mut bytes, value);
    put_bytes(out, &bytes);
}

/// Appends a number in eight bytes, the lowest first. No memory is taken.
pub fn put_u64(out: &mut Vec<u8>, value: u64)
    requires { HasRoom out.old 8 }
    ensures { Puts out.old (little_bytes 8 value) out.new }
{
    let mut bytes = [0; 8];
    LittleEndian::write_u64(&mut bytes, value);
    put_bytes(out, &bytes);
}

/// Appends a text after its length, a number of two bytes. No memory is taken.
pub fn put_text(out: &mut Vec<u8>, text: &[u8])
    requires room { HasRoom out.old (2 + length text.now) }
    requires short { length text.now < 2 ^ 16 }
    ensures { Puts out.old (text_of text.now) out.new }
{
    put_u16(out, text.len() as u16);
    put_bytes(out, text);
}
