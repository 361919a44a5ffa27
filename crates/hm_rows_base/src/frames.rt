//! Frames, by the names of their bytes.
use hex::FromHexError;
use hm_log::Frames;
use hm_names::NameFault;
use std::alloc::{AllocError, Global};

/// Bytes with a name.
#[derive(Drop)]
pub struct Named {
    name: String,
    bytes: Vec<u8>,
}

// The front of a text up to a space, and what follows it.
fn halves(text: &str) -> Result<(&str, &str), NameFault> {
    text.split_once(" ").ok_or(NameFault::Empty)
}

// The bytes that have a name.
fn bytes_named<'a>(named: &'a [Named], name: &str) -> Option<&'a [u8]> {
    for own in named {
        if own.name.as_str() == name {
            return Some(&own.bytes);
        }
    }
    None
}

// The bytes of hex digits.
fn bytes_of_hex(alloc: Global, digits: &str) -> Result<Vec<u8>, NameFault> {
    match hex::decode(alloc, digits) {
        Ok(bytes) => Ok(bytes),
        Err(FromHexError::OutOfMemory) => Err(NameFault::Memory),
        Err(FromHexError::InvalidHexCharacter { c: _, index }) => {
            Err(NameFault::BadByte(index as u64))
        }
        Err(_) => Err(NameFault::BadNumber(digits.len() as u64)),
    }
}

// Adds the bytes of a piece: those that have it as a name, or else those of hex digits.
fn add_piece(
    alloc: Global,
    named: &[Named],
    piece: &str,
    bytes: &mut Vec<u8>,
) -> Result<(), NameFault> {
    match bytes_named(named, piece) {
        Some(own) => bytes.extend_from_slice(own)?,
        None => {
            let own = bytes_of_hex(alloc, piece)?;
            bytes.extend_from_slice(&own)?;
        }
    }
    Ok(())
}

// The bytes of pieces that are joined by `+`.
fn bytes_of(alloc: Global, named: &[Named], pieces: &str) -> Result<Vec<u8>, NameFault> {
    let mut bytes = Vec::new(alloc);
    for piece in pieces.split('+') {
        add_piece(alloc, named, piece, &mut bytes)?;
    }
    Ok(bytes)
}

/// Gives a name to bytes: it stands first, and a space behind it.
pub fn name(alloc: Global, named: &mut Vec<Named>, text: &str) -> Result<(), NameFault> {
    let (name, pieces) = halves(text)?;
    let bytes = bytes_of(alloc, named, pieces)?;
    let name = name.to_string(alloc)?;
    named.push(Named { name, bytes }).map_err(AllocError::from)?;
    Ok(())
}

// Adds a frame with these bytes, where one can have them.
fn add_frame(alloc: Global, frames: &mut Frames, bytes: &[u8]) -> Result<(), NameFault> {
    if bytes.is_empty() {
        return Err(NameFault::Empty);
    }
    if bytes.len() > 65_536 {
        return Err(NameFault::TooLong(bytes.len() as u64));
    }
    frames.push(alloc, bytes)?;
    Ok(())
}

/// The frames that words spell, one each.
pub fn frames(alloc: Global, named: &[Named], words: &str) -> Result<Frames, NameFault> {
    let mut frames = Frames::new(alloc)?;
    for word in words.split(' ') {
        if !word.is_empty() {
            let bytes = bytes_of(alloc, named, word)?;
            add_frame(alloc, &mut frames, &bytes)?;
        }
    }
    Ok(frames)
}
