//! A source in memory, whose reads fail as it is told.
ghost use Rattle.std.specs.Prelude.{◌≡◌, ◌<◌, ◌++◌, ◌↔◌, [], length, take, min, IsErr, IfOk, OnOk, OnErr, Contains};
ghost use Rattle.std.specs.Io.{ReadsAtMost};
ghost use Rattle.hm_ports.specs.Faults.{raised, HasCause};

use crate::source::read_from;
use crate::{Failed, Source, next_call_fails, raise};
use std::marker::Model;

/// A source over the bytes of a vector. It fails at the calls that it is told to.
#[derive(Drop)]
pub struct MemSource {
    bytes: Vec<u8>,
    at: usize,
    fails: Vec<u64>,
    calls: u64,
    faults: u64,
}

impl Model for MemSource {
    ghost use Rattle.std.specs.Prelude.{◌≤◌, drop, vec_len};
    ghost use Rattle.hm_ports.specs.Memory.{SourceView};

    ghost Value = { SourceView };

    ghost view = { λ s. record { left = drop s.at s.bytes.items; fails = s.fails.items; calls = s.calls; faults = s.faults } };

    ghost invariant = { λ s. s.at ≤ vec_len s.bytes };
}

impl MemSource {
    /// A source of these bytes. The calls of `read` are numbered from 0; those in `fails` fail.
    pub fn new(bytes: Vec<u8>, fails: Vec<u64>) -> MemSource
        ensures { result ≡
            record { left = bytes.items; fails = fails.items; calls = 0; faults = 0 } }
    {
        MemSource {
            bytes,
            at: 0,
            fails,
            calls: 0,
            faults: 0,
        }
    }
}

impl Source for MemSource {
    ghost tells = { Unit {0} };

    ghost left = { λ s. s.left };

    ghost faults = { λ s. s.faults };

    /// Reads as many bytes as are left and fit.
    fn read(&mut self, into: &mut [u8]) -> Result<usize, Failed>
        ensures bound { ReadsAtMost result into.new }
        ensures most { IfOk result (λ n. n ≡ min (length self.old.left) (length into.new)) }
        ensures taken { IfOk result (λ n. self.old.left ≡ take n into.new ++ self.new.left) }
        ensures end { IfOk result (λ n. n ≡ 0 → 0 < length into.new → self.old.left ≡ []) }
        ensures cause { HasCause self.old.faults self.new.faults result }

        // It fails, and counts it, exactly at the calls that are to fail.
        ensures fails { IsErr result ↔ Contains self.old.fails self.old.calls }
        ensures ok { OnOk result (self.new ≡
            record self.old { left = self.new.left; calls = raised self.old.calls }) }
        ensures err { OnErr result (self.new ≡
            record self.old { calls = raised self.old.calls; faults = raised self.old.faults }) }
    {
        if next_call_fails(&mut self.calls, &self.fails) {
            raise(&mut self.faults);
            return Err(Failed);
        }
        Ok(read_from(&self.bytes, &mut self.at, into))
    }
}
