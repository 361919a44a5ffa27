//! The batch itself.
ghost use Rattle.std.specs.Prelude.{◌≡◌, ◌+◌, ◌*◌, ◌^◌, ◌≤◌, ◌<◌, ◌++◌, ◌∷◌, [], List, ℕ, length, false, true, IfOk, OnOk, OnErr};
ghost use Rattle.hm_ports.specs.Faults.{Rose};
ghost use Rattle.hm_disk.specs.Disk.{LeavesOnly, RisesBy};
ghost use Rattle.hm_log.specs.Format.{IsFrame, Reads};
ghost use Rattle.hm_batch.specs.Flushing.{ReadsWithFirst, BreaksOff};
ghost use Rattle.hm_batch.specs.Pieces.{bytes_of, pieces_of};
ghost use Rattle.hm_batch.specs.View.{HasRoomFor};

use crate::pieces::{Piece, add_runs, growing};
use hm_disk::Disk;
use hm_log::{Log, lay_frame};
use hm_ports::Failed;
use std::alloc::{AllocError, Global};
use std::marker::Model;

/// Frames that wait to be written. They are kept in pieces, each of as many of the next frames as fit into
/// 65,541 bytes, and a piece is laid out as the run that a log takes.
#[derive(Drop)]
pub struct Batch {
    // What is noted of each piece.
    notes: Vec<Piece>,
    // Their runs, one after the other.
    bytes: Vec<u8>,
}

impl Model for Batch {
    ghost use Rattle.std.specs.Prelude.{vec_capacity};
    ghost use Rattle.hm_batch.specs.View.{BatchView, IsBatch, frames_in};

    ghost Value = { BatchView };

    ghost view = { λ b. record {
      frames = frames_in b.notes.items b.bytes.items;
      room = vec_capacity b.bytes;
      slots = vec_capacity b.notes;
    } };

    ghost invariant = { λ b. IsBatch b.notes.items b.bytes.items };
}

impl Batch {
    /// No frame.
    pub fn new(alloc: Global) -> Result<Batch, AllocError>
        ensures { IfOk result (λ batch. batch.frames ≡ []) }
    {
        Ok(Batch {
            notes: Vec::with_capacity(alloc, 1)?,
            bytes: Vec::new(alloc),
        })
    }

    /// Makes room for one frame more of so many bytes.
    pub fn reserve(&mut self, bytes: u64) -> Result<(), AllocError>
        ensures made { OnOk result (HasRoomFor bytes self.new) }
        ensures frames { self.new.frames ≡ self.old.frames }
        ensures room { self.old.room ≤ self.new.room }
        ensures slots { self.old.slots ≤ self.new.slots }
    {
        let size = (bytes as usize).checked_add(5).ok_or(AllocError)?;
        self.notes.reserve(1)?;
        self.bytes.reserve(size)
    }

    /// Adds a frame after the others.
    pub fn put(&mut self, frame: &[u8])
        requires size { IsFrame frame.now }
        requires room { HasRoomFor (length frame.now) self.old }
        ensures frames { self.new.frames ≡ self.old.frames ++ frame.now ∷ [] }

        // It takes no memory.
        ensures room { self.new.room ≡ self.old.room }
        ensures slots { self.new.slots ≡ self.old.slots }
    {
        let size = frame.len() as u64 + 5;
        let piece = growing(&mut self.notes, &mut self.bytes, size);
        lay_frame(&mut self.bytes, frame);
        self.notes.push_reserved(Piece {
            bytes: piece.bytes + size,
            frames: piece.frames + 1,
        });
    }

    /// How many bytes the frames take in a log: their own, and five for each.
    pub fn bytes(&self) -> u64
        ensures { result ≡ bytes_of self.now.frames }
    {
        self.bytes.len() as u64
    }

    /// Adds the frames to a log, piece by piece, and gives the count of the log's frames. The batch is then
    /// empty. After an error it is as it was, and the log is stalled.
    pub fn flush<D: Disk>(&mut self, log: &mut Log<D>) -> Result<u64, Failed>
        requires live { log.old.stalled ≡ false }
        requires room { log.old.bytes + bytes_of self.old.frames < 2 ^ 64 }

        // What it adds.
        ensures count { D.tells → IfOk result (λ n. n ≡ length log.new.frames) }
        ensures added { D.tells → OnOk result (log.new.frames ≡ log.old.frames ++ self.old.frames) }
        ensures bytes { OnOk result (log.new.bytes ≡ log.old.bytes + bytes_of self.old.frames) }
        ensures live_on { OnOk result (log.new.stalled ≡ false) }
        ensures empty { OnOk result (self.new.frames ≡ []) }

        // It takes no memory.
        ensures batch_room { self.new.room ≡ self.old.room }
        ensures slots { self.new.slots ≡ self.old.slots }
        ensures log_room { log.new.room ≡ log.old.room }

        // What the disk reads as, now and after each stop.
        ensures on_disk { D.tells →
            ReadsWithFirst log.old.frames (pieces_of self.old.frames) (D.seen log.new.disk) }
        ensures durable { D.tells → OnOk result ((c : List ℕ) → D.image log.new.disk c → Reads c log.new.frames) }
        ensures any_moment { D.tells → LeavesOnly D.moment D.left_since log.old.disk log.new.disk
            (ReadsWithFirst log.old.frames (pieces_of self.old.frames)) }

        // When it fails, and what that leaves.
        ensures fault { OnErr result (Rose (D.faults log.old.disk) (D.faults log.new.disk)) }
        ensures no_fault { OnOk result (D.faults log.new.disk ≡ D.faults log.old.disk) }
        ensures stalled { OnErr result (log.new.stalled ≡ true) }
        ensures kept { OnErr result (self.new ≡ self.old) }
        ensures breaks_off { OnErr result (BreaksOff D.Disk (pieces_of self.old.frames) log.old log.new) }

        // The disk's count of changes and its setting.
        ensures changes { OnOk result (RisesBy (2 * length (pieces_of self.old.frames))
            (D.changes log.old.disk) (D.changes log.new.disk)) }
        ensures setting { D.setting log.new.disk ≡ D.setting log.old.disk }
    {
        let count = add_runs(&self.notes, &self.bytes, log)?;
        self.notes.clear();
        self.bytes.clear();
        Ok(count)
    }
}
