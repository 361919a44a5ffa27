//! Changes of a vector within the room that was made for it, which take no memory.
ghost use Rattle.std.specs.Prelude.{◌≡◌, ◌+◌, ◌≤◌, ◌++◌, length, replicate, vec_len, vec_capacity};
ghost use Rattle.hm_disk.specs.Disk.{written};
ghost use Rattle.hm_disk.specs.Memory.{filled};

// Appends bytes.
pub(crate) fn put(out: &mut Vec<u8>, bytes: &[u8])
    requires { vec_len out.old + length bytes.now ≤ vec_capacity out.old }
    ensures capacity { vec_capacity out.old ≤ vec_capacity out.new }
    ensures items { out.new.items ≡ out.old.items ++ bytes.now }
{
    if out.extend_from_slice(bytes).is_err() {
        unreachable!()
    }
}

// Appends one byte so many times.
pub(crate) fn grow(out: &mut Vec<u8>, count: usize, byte: u8)
    requires { vec_len out.old + count ≤ vec_capacity out.old }
    ensures capacity { vec_capacity out.old ≤ vec_capacity out.new }
    ensures items { out.new.items ≡ out.old.items ++ replicate count byte }
{
    let size = out.len() + count;
    if out.resize(size, byte).is_err() {
        unreachable!()
    }
}

// Writes bytes over what is there, and past the end.
pub(crate) fn overlay(out: &mut Vec<u8>, at: usize, bytes: &[u8])
    requires place { at ≤ vec_len out.old }
    requires room { at + length bytes.now ≤ vec_capacity out.old }
    ensures capacity { vec_capacity out.old ≤ vec_capacity out.new }
    ensures items { out.new.items ≡ written at bytes.now out.old.items }
{
    if bytes.len() < out.len() - at {
        out[at..at + bytes.len()].copy_from_slice(bytes);
    } else {
        out.truncate(at);
        put(out, bytes);
    }
}

// Writes so many ones over what is there, and past the end.
pub(crate) fn mark(out: &mut Vec<u8>, at: usize, count: usize)
    requires place { at ≤ vec_len out.old }
    requires room { at + count ≤ vec_capacity out.old }
    ensures capacity { vec_capacity out.old ≤ vec_capacity out.new }
    ensures items { out.new.items ≡ written at (replicate count 1) out.old.items }
{
    if count < out.len() - at {
        out[at..at + count].fill(1);
    } else {
        out.truncate(at);
        grow(out, count, 1);
    }
}

// Replaces each byte that has a mark.
pub(crate) fn shade(bytes: &mut [u8], marks: &[u8], by: u8)
    requires { length marks.now ≡ length bytes.old }
    ensures { bytes.new ≡ filled by marks.now bytes.old }
{
    for i in 0..bytes.len() {
        if marks[i] == 1 {
            bytes[i] = by;
        }
    }
}
