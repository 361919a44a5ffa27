//! A sink in memory, whose writes fail as it is told.
ghost use Rattle.std.specs.Prelude.{◌≡◌, ◌-◌, ◌<◌, ◌++◌, ◌↔◌, ◌⊎◌, [], length, take, min, vec_len, IsErr, IfOk, OnOk, OnErr, Contains};
ghost use Rattle.std.specs.Io.{WritesAtMost};
ghost use Rattle.hm_ports.specs.Faults.{raised, HasCause};

use crate::{Failed, Sink, next_call_fails, raise};
use std::marker::Model;

/// A sink over the bytes of a vector, which it writes over from the start. It fails at the calls
/// that it is told to, and where the vector is used up.
#[derive(Drop)]
pub struct MemSink {
    bytes: Vec<u8>,
    at: usize,
    fails: Vec<u64>,
    calls: u64,
    faults: u64,
}

impl Model for MemSink {
    ghost use Rattle.std.specs.Prelude.{◌≤◌, take, vec_len};
    ghost use Rattle.hm_ports.specs.Memory.{SinkView};

    ghost Value = { SinkView };

    ghost view = { λ s. record { got = take s.at s.bytes.items; room = vec_len s.bytes; fails = s.fails.items; calls = s.calls; faults = s.faults } };

    ghost invariant = { λ s. s.at ≤ vec_len s.bytes };
}

impl MemSink {
    /// A sink with room for as many bytes as `room` has. The calls of `write` are numbered from 0;
    /// those in `fails` fail.
    pub fn new(room: Vec<u8>, fails: Vec<u64>) -> MemSink
        ensures { result ≡
            record { got = []; room = vec_len room; fails = fails.items; calls = 0; faults = 0 } }
    {
        MemSink {
            bytes: room,
            at: 0,
            fails,
            calls: 0,
            faults: 0,
        }
    }

    /// What it has got.
    pub fn got(&self) -> &[u8]
        ensures { result.now ≡ self.now.got }
    {
        &self.bytes[..self.at]
    }
}

impl Sink for MemSink {
    ghost tells = { Unit {0} };

    ghost got = { λ s. s.got };

    ghost faults = { λ s. s.faults };

    /// Takes as many bytes as there is room for.
    fn write(&mut self, bytes: &[u8]) -> Result<usize, Failed>
        ensures bound { WritesAtMost result bytes.now }
        ensures some { IfOk result (λ n. 0 < length bytes.now → 0 < n) }
        ensures most { IfOk result
            (λ n. n ≡ min (length bytes.now) (self.old.room - length self.old.got)) }
        ensures taken { IfOk result (λ n. self.new.got ≡ self.old.got ++ take n bytes.now) }
        ensures cause { HasCause self.old.faults self.new.faults result }

        // It fails, and counts it, exactly at the calls that are to fail and where no room is left.
        ensures fails { IsErr result ↔
            (Contains self.old.fails self.old.calls ⊎ (length self.old.got ≡ self.old.room)) }
        ensures ok { OnOk result (self.new ≡
            record self.old { got = self.new.got; calls = raised self.old.calls }) }
        ensures err { OnErr result (self.new ≡
            record self.old { calls = raised self.old.calls; faults = raised self.old.faults }) }
    {
        if next_call_fails(&mut self.calls, &self.fails) || self.at == self.bytes.len() {
            raise(&mut self.faults);
            return Err(Failed);
        }
        let count = bytes.len().min(self.bytes.len() - self.at);
        self.bytes[self.at..self.at + count].copy_from_slice(&bytes[..count]);
        self.at += count;
        Ok(count)
    }
}
