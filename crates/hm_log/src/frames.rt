//! Frames, as they were read from a log or are to be put into one.
ghost use Rattle.std.specs.Prelude.{◌≡◌, ◌<◌, ◌++◌, ◌∷◌, [], List, ℕ, length, map, slice_get, All, OnOk, OnErr, IfOk};
ghost use Rattle.hm_log.specs.Format.{image_size, IsFrame};

use std::alloc::{AllocError, Global};
use std::marker::Model;

/// The frames of a log, numbered from 0. A frame has 1 to 65,536 bytes.
#[derive(Drop)]
pub struct Frames {
    all: Vec<Vec<u8>>,
    // The size of an image of them: for each its bytes, four for its length and its gate, and a closed gate.
    bytes: u64,
}

impl Model for Frames {
    ghost use Rattle.std.specs.Prelude.{List, ℕ, ◌≡◌, map, All};
    ghost use Rattle.hm_log.specs.Format.{image_size, IsFrame};

    ghost Value = { List (List ℕ) };

    ghost view = { λ a. map (λ frame. frame.items) a.all.items };

    ghost invariant = { λ a. (All IsFrame (map (λ frame. frame.items) a.all.items)) × (a.bytes ≡ image_size (map (λ frame. frame.items) a.all.items)) };
}

impl Frames {
    /// No frames.
    pub fn new(alloc: Global) -> Result<Frames, AllocError>
        ensures { IfOk result (λ frames. frames ≡ []) }
    {
        Ok(Frames::none(alloc))
    }

    /// Adds a frame with these bytes.
    pub fn push(&mut self, alloc: Global, frame: &[u8]) -> Result<(), AllocError>
        requires { IsFrame frame.now }
        ensures added { OnOk result (self.new ≡ self.old ++ frame.now ∷ []) }
        ensures kept { OnErr result (self.new ≡ self.old) }
    {
        // So many bytes are in no memory.
        let Some(bytes) = self.bytes.checked_add(frame.len() as u64 + 5) else {
            return Err(AllocError);
        };
        let frame = frame.to_vec(alloc)?;
        self.all.reserve(1)?;
        self.all.push_reserved(frame);
        self.bytes = bytes;
        Ok(())
    }

    /// How many there are.
    pub fn count(&self) -> u64
        ensures count { result ≡ length self.now }
        ensures each { All IsFrame self.now }
    {
        self.all.len() as u64
    }

    /// The frame with this number.
    pub fn frame(&self, number: u64) -> &[u8]
        requires { number < length self.now }
        ensures { slice_get self.now number ≡ Some result.now }
    {
        &self.all[number as usize]
    }

    /// The frames themselves, in order.
    pub fn into_vec(self) -> Vec<Vec<u8>>
        ensures { map (λ frame. frame.items) result.items ≡ self }
    {
        self.all
    }

    /// The size of an image of them: for each its bytes, four for its length and its gate, and a closed gate.
    pub fn image_size(&self) -> u64
        ensures size { result ≡ image_size self.now }
        ensures each { All IsFrame self.now }
    {
        self.bytes
    }

    pub(crate) fn none(alloc: Global) -> Frames
        ensures { result ≡ [] }
    {
        Frames {
            all: Vec::new(alloc),
            bytes: 1,
        }
    }
}
