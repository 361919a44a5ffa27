//! A source of bytes.
ghost use Rattle.std.specs.Prelude.{◌≡◌, ◌<◌, ◌≤◌, ◌++◌, [], List, ℕ, length, take, drop, min, IfOk, OnOk, OnErr, IsErrOf};
ghost use Rattle.std.specs.Io.{ReadsAtMost};
ghost use Rattle.hm_ports.specs.Faults.{HasCause, Rose};

use crate::Failed;
use std::alloc::Global;
use thiserror::Error;

/// Where bytes come from. Where a kind of source doesn't tell its content, nothing is said of
/// `left`.
pub trait Source {
    /// This kind of source tells what it has left.
    ghost tells: { Type 0 };

    /// The bytes that are left.
    ghost left: { Self → List ℕ };

    /// How often a read has failed.
    ghost faults: { Self → ℕ };

    /// Reads some bytes into the front of the slice, and answers how many. None into a slice that
    /// isn't empty is the end.
    fn read(&mut self, into: &mut [u8]) -> Result<usize, Failed>
        ensures bound { ReadsAtMost result into.new }
        ensures taken { tells → IfOk result (λ n. left self.old ≡ take n into.new ++ left self.new) }
        ensures end { tells → IfOk result (λ n. n ≡ 0 → 0 < length into.new → left self.old ≡ []) }
        ensures kept { tells → OnErr result (left self.new ≡ left self.old) }
        ensures cause { HasCause (faults self.old) (faults self.new) result };
}

/// Why a source was not read to its end.
#[derive(Clone, Copy, Debug, PartialEq, Eq, Error)]
pub enum ReadWhy {
    /// A read failed.
    #[error("the source failed")]
    Failed,
    /// More bytes came than the limit.
    #[error("the source has too many bytes")]
    TooLong,
    /// There was no memory for the bytes.
    #[error("out of memory")]
    Memory,
}

// Reads as many bytes as are left after a place and fit, and moves the place after them.
pub(crate) fn read_from(bytes: &[u8], at: &mut usize, into: &mut [u8]) -> usize
    requires { at.old ≤ length bytes.now }
    ensures most { result ≡ min (length (drop at.old bytes.now)) (length into.new) }
    ensures taken { drop at.old bytes.now ≡ take result into.new ++ drop at.new bytes.now }
    ensures within { at.new ≤ length bytes.now }
{
    let count = into.len().min(bytes.len() - *at);
    into[..count].copy_from_slice(&bytes[*at..*at + count]);
    *at += count;
    count
}

const CHUNK: usize = 4096;

/// Reads a source to its end, where that comes within `limit` bytes. After an error the source may
/// have given any front of what was left, by up to 4096 bytes more than `limit`.
pub fn read_all<S: Source>(alloc: Global, source: &mut S, limit: usize) -> Result<Vec<u8>, ReadWhy>
    ensures all { S.tells → IfOk result (λ bytes. bytes.items ≡ S.left source.old) }
    ensures end { S.tells → OnOk result (S.left source.new ≡ []) }
    ensures limit { IfOk result (λ bytes. length bytes.items ≤ limit) }

    // With `all` and `limit`: a longer source isn't answered Ok, and a shorter one isn't TooLong.
    ensures too_long { S.tells →
        IsErrOf result ReadWhy.TooLong → limit < length (S.left source.old) }
    ensures failed { IsErrOf result ReadWhy.Failed →
        Rose (S.faults source.old) (S.faults source.new) }

    ensures front { S.tells →
        (front : List ℕ) × (S.left source.old ≡ front ++ S.left source.new) }
    ensures faults { S.faults source.old ≤ S.faults source.new }
{
    let mut bytes: Vec<u8> = Vec::new(alloc);
    let mut chunk = [0u8; CHUNK];
    while bytes.len() <= limit {
        let Ok(count) = source.read(&mut chunk) else {
            return Err(ReadWhy::Failed);
        };
        if count == 0 {
            return Ok(bytes);
        }
        if bytes.extend_from_slice(&chunk[..count]).is_err() {
            return Err(ReadWhy::Memory);
        }
    }
    Err(ReadWhy::TooLong)
}
