//! A sink that drops what it takes.
ghost use Rattle.std.specs.Prelude.{[]};

use hm_ports::{Failed, Sink};

/// It takes all bytes, tells nothing of them, and never fails.
#[derive(Drop)]
pub(crate) struct Nowhere;

impl Sink for Nowhere {
    ghost tells = { ⊥ };

    ghost got = { λ _. [] };

    ghost faults = { λ _. 0 };

    fn write(&mut self, bytes: &[u8]) -> Result<usize, Failed> {
        Ok(bytes.len())
    }
}
