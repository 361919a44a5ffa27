//! Bytes that have names.
use crate::bytes::{add_digits, add_frame, add_plain};
use crate::fault::Fault;
use std::alloc::{AllocError, Global};

/// Bytes by their names.
#[derive(Drop)]
pub struct Names {
    named: Vec<(String, Vec<u8>)>,
}

impl Names {
    pub fn new(alloc: Global) -> Names {
        Names {
            named: Vec::new(alloc),
        }
    }

    /// Names these bytes.
    pub fn add(&mut self, alloc: Global, name: &str, bytes: &[u8]) -> Result<(), AllocError> {
        let name = name.to_string(alloc)?;
        let bytes = bytes.to_vec(alloc)?;
        self.named.push((name, bytes))?;
        Ok(())
    }

    // The bytes that were named so last.
    fn find(&self, name: &str) -> Result<&[u8], Fault> {
        for (other, bytes) in self.named.iter().rev() {
            if other.as_str() == name {
                return Ok(bytes);
            }
        }
        Err(Fault::Unread)
    }

    // Adds text in quotes, the bytes of a name, or those of digits.
    fn add_word(&self, bytes: &mut Vec<u8>, word: &str) -> Result<(), Fault> {
        if let Some(text) = word.strip_prefix('"') {
            let Some(text) = text.strip_suffix('"') else {
                return Err(Fault::Unread);
            };
            return add_plain(bytes, text);
        }
        if word.starts_with(|letter: char| letter.is_ascii_lowercase()) {
            bytes.extend_from_slice(self.find(word)?)?;
            return Ok(());
        }
        add_digits(bytes, word)
    }

    // Adds what a word stands for: a frame after an open or a closed gate, or bytes as they are.
    fn add_part(&self, alloc: Global, bytes: &mut Vec<u8>, word: &str) -> Result<(), Fault> {
        let (gate, rest) = if let Some(rest) = word.strip_prefix('+') {
            (b'+', rest)
        } else if let Some(rest) = word.strip_prefix('-') {
            (b'-', rest)
        } else {
            return self.add_word(bytes, word);
        };
        let mut frame = Vec::new(alloc);
        self.add_word(&mut frame, rest)?;
        add_frame(bytes, gate, &frame)
    }

    /// The bytes of words: text in quotes, digits, a name, or a frame of one of these, after `+` or `-`.
    pub fn bytes(&self, alloc: Global, words: &str) -> Result<Vec<u8>, Fault> {
        let mut bytes = Vec::new(alloc);
        for word in words.split_whitespace() {
            self.add_part(alloc, &mut bytes, word)?;
        }
        Ok(bytes)
    }

    /// Names bytes by a line: a name, and words.
    pub fn define(&mut self, alloc: Global, line: &str) -> Result<(), Fault> {
        let Some((name, words)) = line.split_once(' ') else {
            return Err(Fault::Unread);
        };
        let bytes = self.bytes(alloc, words)?;
        self.add(alloc, name, &bytes)?;
        Ok(())
    }
}
