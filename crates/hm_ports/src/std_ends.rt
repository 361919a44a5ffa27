//! A source over a reader of std and a sink over a writer of std. They tell no content.
ghost use Rattle.std.specs.Prelude.{◌≡◌, ◌<◌, [], length, IfOk, OnOk, OnErr};
ghost use Rattle.std.specs.Io.{ReadsAtMost, WritesAtMost};
ghost use Rattle.std.specs.Io.KnownBytes.{ReadConsumes, WriteAppends};
ghost use Rattle.hm_ports.specs.Faults.{raised, HasCause};

use crate::{Failed, Sink, Source, raise};
use std::io::{Read, Write};
use std::marker::Model;

/// A source over a reader. Each call is one call of the reader, whose errors it counts.
#[derive(Drop)]
pub struct StdSource<T: Read> {
    inner: T,
    faults: u64,
}

impl<T: Read> Model for StdSource<T> {
    ghost use Rattle.hm_ports.specs.Std.{StdView};

    ghost Value = { StdView T };

    ghost view = { λ s. record { inner = s.inner; faults = s.faults } };
}

impl<T: Read> StdSource<T> {
    /// A source of what this reader gives.
    pub fn new(inner: T) -> Self
        ensures { result ≡ record { inner = inner; faults = 0 } }
    {
        StdSource { inner, faults: 0 }
    }
}

impl<T: Read> Source for StdSource<T> {
    ghost tells = { ⊥ };

    ghost left = { λ _. [] };

    ghost faults = { λ s. s.faults };

    fn read(&mut self, into: &mut [u8]) -> Result<usize, Failed>
        ensures bound { ReadsAtMost result into.new }

        // Where the reader tells what it has left, that is read.
        ensures passes { ReadConsumes (T.remaining self.old.inner) (T.remaining self.new.inner)
            result into.new }
        ensures cause { HasCause self.old.faults self.new.faults result }
        ensures ok { OnOk result (self.new.faults ≡ self.old.faults) }
        ensures err { OnErr result (self.new.faults ≡ raised self.old.faults) }
    {
        match self.inner.read(into) {
            Ok(count) => Ok(count),
            Err(_) => {
                raise(&mut self.faults);
                Err(Failed)
            }
        }
    }
}

/// A sink over a writer. Each call is one call of the writer. It counts the writer's errors, and as
/// one of them a write that takes nothing of a piece that isn't empty.
#[derive(Drop)]
pub struct StdSink<T: Write> {
    inner: T,
    faults: u64,
}

impl<T: Write> Model for StdSink<T> {
    ghost use Rattle.hm_ports.specs.Std.{StdView};

    ghost Value = { StdView T };

    ghost view = { λ s. record { inner = s.inner; faults = s.faults } };
}

impl<T: Write> StdSink<T> {
    /// A sink into this writer.
    pub fn new(inner: T) -> Self
        ensures { result ≡ record { inner = inner; faults = 0 } }
    {
        StdSink { inner, faults: 0 }
    }
}

impl<T: Write> Sink for StdSink<T> {
    ghost tells = { ⊥ };

    ghost got = { λ _. [] };

    ghost faults = { λ s. s.faults };

    fn write(&mut self, bytes: &[u8]) -> Result<usize, Failed>
        ensures bound { WritesAtMost result bytes.now }
        ensures some { IfOk result (λ n. 0 < length bytes.now → 0 < n) }

        // Where the writer tells what it holds, that is written.
        ensures passes { WriteAppends (T.contents self.old.inner) (T.contents self.new.inner)
            result bytes.now }
        ensures cause { HasCause self.old.faults self.new.faults result }
        ensures ok { OnOk result (self.new.faults ≡ self.old.faults) }
        ensures err { OnErr result (self.new.faults ≡ raised self.old.faults) }
    {
        match self.inner.write(bytes) {
            Ok(count) if count > 0 || bytes.is_empty() => Ok(count),
            _ => {
                raise(&mut self.faults);
                Err(Failed)
            }
        }
    }
}
