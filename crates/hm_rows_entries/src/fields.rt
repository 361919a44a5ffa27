//! Fields of bytes, written and read.
use hm_wire::{Reader, WireFault, put_byte, put_text, put_u16, put_u32, put_u64};
use std::test::Fail;

// A byte, numbers of two, four and eight bytes, and a text.
const FIELDS: [u8; 21] = [
    7, 2, 1, 4, 3, 2, 1, 8, 7, 6, 5, 4, 3, 2, 1, 4, 0, 0x73, 0x68, 0x6F, 0x70,
];

#[test]
fn put_writes_each_field(rt: HostRuntime) -> Result<(), Fail> {
    let mut out = Vec::with_capacity(rt.alloc(), 21)?;
    put_byte(&mut out, 7);
    put_u16(&mut out, 0x0102);
    put_u32(&mut out, 0x0102_0304);
    put_u64(&mut out, 0x0102_0304_0506_0708);
    put_text(&mut out, b"shop");
    assert_eq!(rt; out.as_slice(), FIELDS.as_slice());
    Ok(())
}

#[test]
fn a_reader_gives_each_field_or_the_fault_and_its_place(rt: HostRuntime) {
    let mut reader = Reader::new(&FIELDS);
    assert_eq!(rt; reader.byte(), Ok(7));
    assert_eq!(rt; reader.u16(), Ok(0x0102));
    assert_eq!(rt; reader.u32(), Ok(0x0102_0304));
    assert_eq!(rt; reader.u64(), Ok(0x0102_0304_0506_0708));
    assert_eq!(rt; reader.at(), 15);
    assert_eq!(rt; reader.left(), 6);
    assert!(rt; reader.text(3) == Err(WireFault::Range(15)));
    assert!(rt; reader.text(4) == Ok(b"shop".as_slice()));
    assert_eq!(rt; reader.byte(), Err(WireFault::Short(21)));
}
