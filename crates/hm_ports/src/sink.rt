//! A sink of bytes.
ghost use Rattle.std.specs.Prelude.{◌≡◌, ◌<◌, ◌≤◌, ◌++◌, List, ℕ, length, take, IfOk, OnOk, OnErr};
ghost use Rattle.std.specs.Io.{WritesAtMost};
ghost use Rattle.hm_ports.specs.Faults.{HasCause};

use crate::Failed;

/// Where bytes go. Where a kind of sink doesn't tell its content, nothing is said of `got`.
pub trait Sink {
    /// This kind of sink tells what it has got.
    ghost tells: { Type 0 };

    /// The bytes that it has got.
    ghost got: { Self → List ℕ };

    /// How often a write has failed.
    ghost faults: { Self → ℕ };

    /// Takes some bytes from the front of a piece, and answers how many.
    fn write(&mut self, bytes: &[u8]) -> Result<usize, Failed>
        ensures bound { WritesAtMost result bytes.now }
        ensures some { IfOk result (λ n. 0 < length bytes.now → 0 < n) }
        ensures taken { tells → IfOk result (λ n. got self.new ≡ got self.old ++ take n bytes.now) }
        ensures kept { tells → OnErr result (got self.new ≡ got self.old) }
        ensures cause { HasCause (faults self.old) (faults self.new) result };
}

/// Writes all the bytes, in as many writes as it takes. Where one fails, a front of them is out, and
/// never all.
pub fn write_all<K: Sink>(sink: &mut K, bytes: &[u8]) -> Result<(), Failed>
    ensures all { K.tells → OnOk result (K.got sink.new ≡ K.got sink.old ++ bytes.now) }
    ensures part { K.tells → (n : ℕ) × (n ≤ length bytes.now)
        × (K.got sink.new ≡ K.got sink.old ++ take n bytes.now) }
    ensures short { K.tells → OnErr result ((n : ℕ) × (n < length bytes.now)
        × (K.got sink.new ≡ K.got sink.old ++ take n bytes.now)) }
    ensures cause { HasCause (K.faults sink.old) (K.faults sink.new) result }
{
    let mut done = 0;
    while done < bytes.len() {
        done += sink.write(&bytes[done..])?;
    }
    Ok(())
}
