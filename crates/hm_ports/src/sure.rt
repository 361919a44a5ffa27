//! A source and a sink that never fail.
ghost use Rattle.std.specs.Prelude.{◌≡◌, ◌<◌, ◌++◌, [], length, take, min, IfOk, IsOkAnd};
ghost use Rattle.std.specs.Io.{ReadsAtMost};

use crate::source::read_from;
use crate::{Failed, Sink, Source};
use std::marker::Model;

/// A source over the bytes of a vector that never fails. In contracts it is what is left.
#[derive(Drop)]
pub struct SureSource {
    bytes: Vec<u8>,
    at: usize,
}

impl Model for SureSource {
    ghost use Rattle.std.specs.Prelude.{◌≤◌, List, ℕ, drop, vec_len};

    ghost Value = { List ℕ };

    ghost view = { λ s. drop s.at s.bytes.items };

    ghost invariant = { λ s. s.at ≤ vec_len s.bytes };
}

impl SureSource {
    /// A source of these bytes.
    pub fn new(bytes: Vec<u8>) -> SureSource
        ensures { result ≡ bytes.items }
    {
        SureSource { bytes, at: 0 }
    }
}

impl Source for SureSource {
    ghost tells = { Unit {0} };

    ghost left = { λ s. s };

    ghost faults = { λ _. 0 };

    /// Reads as many bytes as are left and fit.
    fn read(&mut self, into: &mut [u8]) -> Result<usize, Failed>
        ensures most { IsOkAnd result (λ n. n ≡ min (length self.old) (length into.new)) }
        ensures taken { IsOkAnd result (λ n. self.old ≡ take n into.new ++ self.new) }
        ensures bound { ReadsAtMost result into.new }
        ensures end { IfOk result (λ n. n ≡ 0 → 0 < length into.new → self.old ≡ []) }
    {
        Ok(read_from(&self.bytes, &mut self.at, into))
    }
}

/// A sink that drops what it gets, and never fails.
#[derive(Clone, Copy, Debug, PartialEq, Eq)]
pub struct SureSink;

impl SureSink {
    pub fn new() -> SureSink {
        SureSink
    }
}

impl Sink for SureSink {
    ghost tells = { ⊥ };

    ghost got = { λ _. [] };

    ghost faults = { λ _. 0 };

    /// Takes all the bytes.
    fn write(&mut self, bytes: &[u8]) -> Result<usize, Failed>
        ensures all { IsOkAnd result (λ n. n ≡ length bytes.now) }
    {
        Ok(bytes.len())
    }
}
