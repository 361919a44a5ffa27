//! An index that is filled by rule.
use crate::numbers::number;
use hm_index::Index;
use hm_names::NameFault;
use std::alloc::{AllocError, Global};

// Numbers that begin with one and rise by a step, modulo 2^64.
#[derive(Clone, Copy)]
struct Rise {
    first: u64,
    step: u64,
}

impl Rise {
    fn read(first: &str, step: &str) -> Result<Rise, NameFault> {
        let first = number(first)?;
        let step = number(step)?;
        Ok(Rise { first, step })
    }

    fn at(&self, i: u64) -> u64 {
        self.first.wrapping_add(i.wrapping_mul(self.step))
    }
}

// So many pairs, by their keys and values.
#[derive(Clone, Copy)]
struct Fill {
    count: u64,
    keys: Rise,
    values: Rise,
}

impl Fill {
    fn of_words(words: &[&str]) -> Result<Fill, NameFault> {
        match words {
            [count, key, key_step, value, value_step] => Ok(Fill {
                count: number(count)?,
                keys: Rise::read(key, key_step)?,
                values: Rise::read(value, value_step)?,
            }),
            _ => Err(NameFault::BadNumber(1)),
        }
    }

    fn read(alloc: Global, text: &str) -> Result<Fill, NameFault> {
        let words: Vec<&str> = text.split(' ').collect(alloc)?;
        Fill::of_words(&words)
    }

    fn pair(&self, i: u64) -> (u64, u64) {
        (self.keys.at(i), self.values.at(i))
    }
}

fn set_all(alloc: Global, index: &mut Index<u64, u64>, fill: &Fill) -> Result<(), AllocError> {
    for i in 0..fill.count {
        let (key, value) = fill.pair(i);
        index.reserve(alloc, 1)?;
        index.set(key, value);
    }
    Ok(())
}

// How many of the pairs are there.
fn count_told(index: &Index<u64, u64>, fill: &Fill) -> u64 {
    let mut count: u64 = 0;
    for i in 0..fill.count {
        let (key, value) = fill.pair(i);
        if index.get(&key) == Some(&value) {
            count = count.wrapping_add(1);
        }
    }
    count
}

/// Sets pairs by rule, and puts how many of them are there, or only that.
pub fn put_fill(
    alloc: Global,
    index: &mut Index<u64, u64>,
    text: &str,
    out: &mut String,
) -> Result<(), NameFault> {
    let (verb, rest) = text.split_once(" ").unwrap_or((text, ""));
    let fill = Fill::read(alloc, rest)?;
    if verb == "set" {
        set_all(alloc, index, &fill)?;
    }
    write!(out, "{}", count_told(index, &fill))?;
    Ok(())
}
