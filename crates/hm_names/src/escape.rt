ghost use Rattle.std.specs.Prelude.{◌≡◌, ◌+◌, ◌<◌, IfOk, IfSome, Ok, drop, length};
ghost use Rattle.hm_names.specs.Keys.{is_plain as plain, hex_digit as digit_of, hex_value as value_of, first_byte as byte_at, spelled};
ghost use Rattle.hm_names.specs.KeyLength.{sized};

use crate::fault::NameFault;
use std::alloc::{AllocError, Global};
use std::fmt;

// A byte of a row key, as it is printed.
#[derive(Drop)]
pub struct ByteText(pub u8);

fn is_plain(b: u8) -> bool
    ensures { result ≡ plain b }
{
    matches!(b, b'!'..=b'~') && b != b'\\'
}

fn hex_digit(n: u8) -> u8
    requires { n < 16 }
    ensures { result ≡ digit_of n }
{
    if n < 10 { b'0' + n } else { b'A' - 10 + n }
}

fn hex_value(b: u8) -> Option<u8>
    ensures value { result ≡ value_of b }
    ensures small { IfSome result (λ n. n < 16) }
{
    match b {
        b'0'..=b'9' => Some(b - b'0'),
        b'A'..=b'F' => Some(b - (b'A' - 10)),
        b'a'..=b'f' => Some(b - (b'a' - 10)),
        _ => None,
    }
}

impl fmt::Display for ByteText {
    ghost use Rattle.std.specs.Prelude.{Some};
    ghost use Rattle.hm_names.specs.Keys.{byte_text};

    ghost output = { λ b. Some (byte_text b.0) };

    fn fmt<W: fmt::Write>(&self, f: &mut fmt::Formatter<W>) -> fmt::Result {
        let b = self.0;
        if is_plain(b) {
            return f.write_char(b as char);
        }
        f.write_str("\\x")?;
        f.write_char(hex_digit(b / 16) as char)?;
        f.write_char(hex_digit(b % 16) as char)
    }
}

// The byte that a text begins with, and how many bytes after its first stand for it.
#[tactic(auto, unfolding(crate::specs::Keys::first_byte))]
fn first_byte(text: &[u8]) -> Option<(u8, usize)>
    requires { 0 < length text.now }
    ensures byte { result ≡ byte_at text.now }
    ensures within { IfSome result (λ p. p.1 < length text.now) }
{
    let first = text[0];
    if is_plain(first) {
        return Some((first, 0));
    }
    if first != b'\\' || text.len() < 4 || text[1] != b'x' {
        return None;
    }
    let high = hex_value(text[2])?;
    let low = hex_value(text[3])?;
    Some((16 * high + low, 3))
}

// The same of the text that begins at a place.
fn byte_from(text: &[u8], at: usize) -> Option<(u8, usize)>
    requires { at < length text.now }
    ensures byte { result ≡ byte_at (drop at text.now) }
    ensures within { IfSome result (λ p. at + p.1 < length text.now) }
{
    first_byte(&text[at..])
}

// How many bytes the key of a text has.
pub fn key_length(text: &[u8]) -> Result<usize, NameFault>
    ensures { result ≡ sized (spelled 0 0 text.now) }
{
    let mut length = 0;
    let mut at = 0;
    while at < text.len() {
        let Some((_, more)) = byte_from(text, at) else {
            return Err(NameFault::BadByte(at as u64));
        };
        length += 1;
        at += more + 1;
    }
    Ok(length)
}

// The key of a text that stands for one of so many bytes.
pub fn key_of(alloc: Global, text: &[u8], length: usize) -> Result<Vec<u8>, AllocError>
    requires { sized (spelled 0 0 text.now) ≡ Ok length }
    ensures { IfOk result (λ key. spelled 0 0 text.now ≡ Ok key.items) }
{
    let mut key = Vec::with_capacity(alloc, length)?;
    let mut at = 0;
    while at < text.len() {
        let Some((byte, more)) = byte_from(text, at) else {
            unreachable!()
        };
        key.push(byte)?;
        at += more + 1;
    }
    Ok(key)
}
