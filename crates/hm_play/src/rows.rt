//! The rows of a table.
use crate::fault::Fault;
use std::alloc::{AllocError, Global};

/// A block of a table: the head of a part, or a row.
#[derive(Clone, Copy)]
pub struct Row<'a> {
    /// The number of its first line.
    pub line: u64,
    own: &'a [&'a str],
    head: &'a [&'a str],
}

/// What stands after a word with which a line begins.
pub fn behind<'a>(line: &'a str, word: &str) -> Option<&'a str> {
    let rest = line.strip_prefix(word)?;
    if rest.is_empty() {
        Some(rest)
    } else {
        rest.strip_prefix(' ')
    }
}

// What stands after a word in the first line that begins with it.
fn first_behind<'a>(lines: &'a [&'a str], word: &str) -> Option<&'a str> {
    for line in lines {
        if let Some(rest) = behind(line, word) {
            return Some(rest);
        }
    }
    None
}

impl<'a> Row<'a> {
    /// What the part is called that begins here, where this is no row.
    pub fn heading(&self) -> Option<&'a str> {
        first_behind(self.own, "part")
    }

    /// The lines among which those of a word stand: the row's own where one begins with it.
    pub fn lines(&self, word: &str) -> &'a [&'a str] {
        if first_behind(self.own, word).is_some() {
            self.own
        } else {
            self.head
        }
    }

    /// What stands after a word in the first of its lines.
    pub fn value(&self, word: &str) -> Option<&'a str> {
        first_behind(self.lines(word), word)
    }

    /// What stands after a word, in each of its lines.
    pub fn values(&self, alloc: Global, word: &str) -> Result<Vec<&'a str>, AllocError> {
        let mut values = Vec::new(alloc);
        for line in self.lines(word) {
            if let Some(value) = behind(line, word) {
                values.push(value)?;
            }
        }
        Ok(values)
    }
}

/// The lines of a text.
pub fn lines_of<'a>(alloc: Global, text: &'a str) -> Result<Vec<&'a str>, AllocError> {
    text.lines().collect(alloc)
}

// Whether a block has a line that isn't for readers alone.
fn is_said(block: &[&str]) -> bool {
    for line in block {
        if !line.starts_with('#') {
            return true;
        }
    }
    false
}

// The head of a block's part, which is itself where it begins one.
fn head_of<'a>(own: &'a [&'a str], before: &'a [&'a str]) -> &'a [&'a str] {
    if first_behind(own, "part").is_some() {
        own
    } else {
        before
    }
}

/// The blocks of a table, in order.
pub fn rows_of<'a>(alloc: Global, lines: &'a [&'a str]) -> Result<Vec<Row<'a>>, AllocError> {
    let mut rows = Vec::new(alloc);
    let mut head: &'a [&'a str] = &[];
    let mut line = 1u64;
    for own in lines.split(|line| line.is_empty()) {
        head = head_of(own, head);
        if is_said(own) {
            rows.push(Row { line, own, head })?;
        }
        line = line.saturating_add(own.len() as u64 + 1);
    }
    Ok(rows)
}

/// The number of a word.
pub fn number(word: &str) -> Result<u64, Fault> {
    word.parse::<u64>().map_err(|_| Fault::Unread)
}

// Adds a number, or all from one to another as in `1..4`.
fn add_numbers(numbers: &mut Vec<u64>, word: &str) -> Result<(), Fault> {
    let (first, last) = word.split_once("..").unwrap_or((word, word));
    for number in number(first)?..=number(last)? {
        numbers.push(number)?;
    }
    Ok(())
}

/// The numbers of a line, in order.
pub fn numbers(alloc: Global, text: &str) -> Result<Vec<u64>, Fault> {
    let mut numbers = Vec::new(alloc);
    for word in text.split_whitespace() {
        add_numbers(&mut numbers, word)?;
    }
    Ok(numbers)
}
