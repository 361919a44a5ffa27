//! How a frame is laid out after a gate.
ghost use Rattle.std.specs.Prelude.{◌≡◌, ◌+◌, ◌≤◌, ◌++◌, ◌∷◌, [], length, vec_len, vec_capacity};
ghost use Rattle.hm_log.specs.Format.{laid, IsFrame};

/// Appends a frame as it stands after an open gate, its length and its bytes, and a closed gate after
/// it. It keeps within the room that was made, and takes no memory.
pub fn lay_frame(out: &mut Vec<u8>, frame: &[u8])
    requires size { IsFrame frame.now }
    requires room { vec_len out.old + length frame.now + 5 ≤ vec_capacity out.old }
    ensures capacity { vec_capacity out.new ≡ vec_capacity out.old }
    ensures laid { out.new.items ≡ out.old.items ++ laid frame.now ++ 45 ∷ [] }
{
    put(out, &(frame.len() as u32).to_le_bytes());
    put(out, frame);
    put(out, b"-");
}

// Appends within the spare room, and takes no memory.
pub(crate) fn put(out: &mut Vec<u8>, bytes: &[u8])
    requires { vec_len out.old + length bytes.now ≤ vec_capacity out.old }
    ensures capacity { vec_capacity out.new ≡ vec_capacity out.old }
    ensures items { out.new.items ≡ out.old.items ++ bytes.now }
{
    for byte in bytes {
        out.push_reserved(*byte);
    }
}
