//! The log itself.
ghost use Rattle.std.specs.Prelude.{◌≡◌, ◌≢◌, ◌⊎◌, ◌+◌, ◌^◌, ◌≤◌, ◌<◌, ◌↔◌, ◌++◌, ◌∷◌, [], List, ℕ, length, take, vec_len, vec_capacity, false, true, All, IfOk, IfErr, OnOk, OnErr, MatchResult, IsErrOf};
ghost use Rattle.hm_ports.specs.Faults.{Rose};
ghost use Rattle.hm_disk.specs.Called.{IsCalled};
ghost use Rattle.hm_disk.specs.Disk.{Only, RisesBy, LeavesOnly, LeavesThen};
ghost use Rattle.hm_log.specs.Format.{laid, log_of, image_of, size_with, IsFrame, IsFirst, IsMoved, IsPlain, IsWhole, Reads, HoldsFrames, BeforeOrAfter, IsClean, IsNotALog, IsBadFrame};
ghost use Rattle.hm_log.specs.Opening.{IsBlank, IsMaking, IsInPlace, IsUsed, Reopens, IsUntouched, OnlyReads};
ghost use Rattle.hm_log.specs.Run.{IsRun, BeforeOrAll};
ghost use Rattle.hm_log.specs.declared.why.OpenWhy.TheVariants.{Fault, NotALog, BadFrame, Memory};

use crate::device::write_through;
use crate::open::{Ready, prepare};
use crate::pieces::fetch;
use crate::run::lay_frame;
use crate::{Frames, OpenWhy};
use hm_disk::{Anchor, Arm, Disk};
use hm_ports::Failed;
use std::alloc::Global;
use std::marker::Model;

/// A log of frames on a disk. A frame has 1 to 65,536 bytes.
#[derive(Drop)]
pub struct Log<D: Disk> {
    pub(crate) disk: D,
    pub(crate) gate: u64,
    pub(crate) count: u64,
    pub(crate) stalled: bool,
    pub(crate) buffer: Vec<u8>,
}

impl<D: Disk> Model for Log<D> {
    ghost use Rattle.std.specs.Prelude.{◌+◌, vec_capacity};
    ghost use Rattle.hm_log.specs.Format.{frames_of};
    ghost use Rattle.hm_log.specs.View.{LogView, IsLog};

    ghost Value = { LogView D };

    ghost view = { λ a. record {
      disk = a.disk;
      frames = frames_of (D.seen a.disk);
      bytes = a.gate + 1;
      stalled = a.stalled;
      room = vec_capacity a.buffer;
    } };

    ghost invariant = { λ a. IsLog D.tells (D.seen a.disk) (D.image a.disk) a.gate a.count a.stalled (vec_capacity a.buffer) };
}

impl<D: Disk> Log<D> {
    /// Opens the log on a disk, and gives the frames that it held. It begins with a sync, and cuts what
    /// stands after the frames. A disk of size 0, and a log of version 1 without frames, becomes a log of
    /// version 2 with no frame. One of version 1 with frames is moved to version 2, and a move that was
    /// begun is ended. A plain log with nothing after its frames isn't changed.
    ///
    /// `NotALog` and `BadFrame` say that the disk holds no log, and where. `Fault` says that the disk
    /// failed. An error gives the disk back.
    pub fn open(alloc: Global, disk: D) -> Result<(Log<D>, Frames), (D, OpenWhy)>
        // What it gives.
        ensures reads { D.tells → IfOk result (λ r. HoldsFrames (D.seen disk) r.1) }
        ensures each { IfOk result (λ r. All IsFrame r.1) }
        ensures frames { D.tells → IfOk result (λ r. r.0.frames ≡ r.1) }
        ensures bytes { IfOk result (λ r. r.0.bytes ≡ size_with r.1) }
        ensures small { IfOk result (λ r. r.0.bytes < 2 ^ 63) }
        ensures live { IfOk result (λ r. r.0.stalled ≡ false) }

        // What the disk reads as, now and after each stop.
        ensures on_disk { D.tells → IfOk result (λ r. Reads (D.seen r.0.disk) r.1) }
        ensures whole { D.tells → IfOk result (λ r. IsClean (D.seen r.0.disk)) }
        ensures size { D.tells → IfOk result (λ r. length (D.seen r.0.disk) ≡ r.0.bytes) }
        ensures kept { D.tells → (front body : List ℕ) → IsPlain (D.seen disk) front body →
            IfOk result (λ r. D.seen r.0.disk ≡ take r.0.bytes (D.seen disk)) }
        ensures moved { D.tells → (front body : List ℕ) → IsMoved (D.seen disk) front body →
            IfOk result (λ r. D.seen r.0.disk ≡ take 9 (D.seen disk) ++ 45 ∷ image_of r.1) }
        ensures first { D.tells → (front body : List ℕ) → IsFirst (D.seen disk) front body →
            IfOk result (λ r. D.seen r.0.disk ≡ log_of r.1) }
        ensures made { D.tells → IsBlank (D.seen disk) → IfOk result (λ r. D.seen r.0.disk ≡ log_of []) }
        ensures durable { D.tells → IfOk result (λ r. (c : List ℕ) → D.image r.0.disk c → Reads c r.1) }
        ensures any_moment { D.tells → MatchResult result
            (λ r. LeavesThen D.moment D.left_since disk r.0.disk
            (λ c. D.image disk c ⊎ IsMaking (D.seen disk) c) (λ c. Reads c r.1))
            (λ e. LeavesOnly D.moment D.left_since disk e.0
            (λ c. D.image disk c ⊎ Reopens (D.seen disk) c)) }

        // When which error comes, and what it leaves.
        ensures accepts { D.tells → (frames : List (List ℕ)) → HoldsFrames (D.seen disk) frames →
            MatchResult result (λ r. r.1 ≡ frames) (λ e. (e.1 ≡ Fault) ⊎ (e.1 ≡ Memory)) }
        ensures not_a_log { D.tells → (place : ℕ) →
            IfErr result (λ e. e.1 ≡ NotALog place → IsNotALog (D.seen disk) place) }
        ensures bad_frame { D.tells → (place : ℕ) →
            IfErr result (λ e. e.1 ≡ BadFrame place → IsBadFrame (D.seen disk) place) }
        ensures fault { IfErr result (λ e. e.1 ≡ Fault → Rose (D.faults disk) (D.faults e.0)) }
        ensures no_fault { IfOk result (λ r. D.faults r.0.disk ≡ D.faults disk) }
        ensures memory { D.tells → (place : ℕ) →
            IfErr result (λ e. e.1 ≡ Memory → IsNotALog (D.seen disk) place → ⊥) }
        ensures untouched { IfErr result (λ e. e.1 ≢ Fault → IsUntouched D.seen D.image D.changes disk e.0) }
        ensures left { D.tells →
            IfErr result (λ e. (D.seen e.0 ≡ D.seen disk) ⊎ Reopens (D.seen disk) (D.seen e.0)) }

        // The disk's counts and its setting.
        ensures used { MatchResult result
            (λ r. IsUsed D.Disk disk r.0.disk)
            (λ e. IsUsed D.Disk disk e.0) }
        ensures few { D.tells → IsInPlace (D.seen disk) → MatchResult result
            (λ r. IsCalled D.Disk 1 disk r.0.disk)
            (λ e. IsCalled D.Disk 1 disk e.0) }
        ensures clean { D.tells → IsClean (D.seen disk) → MatchResult result
            (λ r. IsCalled D.Disk 0 disk r.0.disk)
            (λ e. IsCalled D.Disk 0 disk e.0) }
    {
        let mut disk = disk;
        match prepare(alloc, &mut disk) {
            Ok(
                Ready {
                    frames,
                    gate,
                    buffer,
                },
            ) => {
                let log = Log {
                    disk,
                    gate,
                    count: frames.count(),
                    stalled: false,
                    buffer,
                };
                Ok((log, frames))
            }
            Err(why) => Err((disk, why)),
        }
    }

    /// Judges a disk as `open` does, and gives the frames that it holds. It only reads: what a stop may
    /// leave stays as it was. A disk of size 0 holds none.
    pub fn scan(alloc: Global, disk: &mut D) -> Result<Frames, OpenWhy>
        ensures reads { D.tells → IfOk result (HoldsFrames (D.seen disk.old)) }
        ensures each { IfOk result (All IsFrame) }
        ensures not_a_log { D.tells → (place : ℕ) →
            IsErrOf result (NotALog place) → IsNotALog (D.seen disk.old) place }
        ensures bad_frame { D.tells → (place : ℕ) →
            IsErrOf result (BadFrame place) → IsBadFrame (D.seen disk.old) place }
        ensures fault { IsErrOf result Fault → Rose (D.faults disk.old) (D.faults disk.new) }
        ensures no_fault { OnOk result (D.faults disk.new ≡ D.faults disk.old) }
        ensures memory { D.tells → (place : ℕ) →
            IsErrOf result Memory → IsNotALog (D.seen disk.old) place → ⊥ }
        ensures only_reads { OnlyReads D.Disk disk.old disk.new }
    {
        Ok(fetch(alloc, disk)?.frames)
    }

    /// Adds a frame, and gives its number. At `Ok` it is on the disk. After an error the log is stalled:
    /// whether the disk holds the frame is known only when it is opened anew.
    pub fn append(&mut self, frame: &[u8]) -> Result<u64, Failed>
        requires live { self.old.stalled ≡ false }
        requires size { IsFrame frame.now }
        requires room { self.old.bytes + length frame.now + 5 < 2 ^ 64 }

        // What it adds.
        ensures number { D.tells → IfOk result (λ n. n ≡ length self.old.frames) }
        ensures added { D.tells → OnOk result (self.new.frames ≡ self.old.frames ++ frame.now ∷ []) }
        ensures bytes { OnOk result (self.new.bytes ≡ self.old.bytes + length frame.now + 5) }
        ensures live_on { OnOk result (self.new.stalled ≡ false) }

        // It takes no memory.
        ensures room { self.new.room ≡ self.old.room }

        // What the disk reads as, now and after each stop.
        ensures written { D.tells → OnOk result (D.seen self.new.disk ≡ take 10 (D.seen self.old.disk) ++ image_of self.new.frames) }
        ensures on_disk { D.tells → BeforeOrAfter self.old.frames frame.now (D.seen self.new.disk) }
        ensures durable { D.tells →
            OnOk result ((c : List ℕ) → D.image self.new.disk c → Reads c self.new.frames) }
        ensures any_moment { D.tells → LeavesOnly D.moment D.left_since self.old.disk self.new.disk
            (BeforeOrAfter self.old.frames frame.now) }

        // When it fails, and what that leaves.
        ensures fault { OnErr result (Rose (D.faults self.old.disk) (D.faults self.new.disk)) }
        ensures no_fault { OnOk result (D.faults self.new.disk ≡ D.faults self.old.disk) }
        ensures stalled { OnErr result (self.new.stalled ≡ true) }

        // The disk's counts and its setting.
        ensures changes { OnOk result (RisesBy 2 (D.changes self.old.disk) (D.changes self.new.disk)) }
        ensures called { IsCalled D.Disk 2 self.old.disk self.new.disk }
    {
        lay(&mut self.buffer, frame);
        self.stalled = true;
        add(&mut self.disk, self.gate, &self.buffer)?;
        let number = self.count;
        self.gate += frame.len() as u64 + 5;
        self.count += 1;
        self.stalled = false;
        Ok(number)
    }

    /// Adds a run of so many frames, and gives the number of the first. At `Ok` all of them are on the disk.
    /// A stop on the way leaves none of them or all. After an error the log is stalled, as after one of
    /// `append`.
    pub fn append_run(&mut self, run: &[u8], count: u64) -> Result<u64, Failed>
        requires live { self.old.stalled ≡ false }
        requires run { (more : List (List ℕ)) × IsRun run.now more × (count ≡ length more) }
        requires room { self.old.bytes + length run.now < 2 ^ 64 }

        // What it adds.
        ensures number { D.tells → IfOk result (λ n. n ≡ length self.old.frames) }
        ensures added { D.tells → (more : List (List ℕ)) → IsRun run.now more →
            OnOk result (self.new.frames ≡ self.old.frames ++ more) }
        ensures bytes { OnOk result (self.new.bytes ≡ self.old.bytes + length run.now) }
        ensures live_on { OnOk result (self.new.stalled ≡ false) }

        // It takes no memory.
        ensures room { self.new.room ≡ self.old.room }

        // What the disk reads as, now and after each stop.
        ensures written { D.tells → OnOk result (D.seen self.new.disk ≡ take 10 (D.seen self.old.disk) ++ image_of self.new.frames) }
        ensures on_disk { D.tells → (more : List (List ℕ)) → IsRun run.now more →
            BeforeOrAll self.old.frames more (D.seen self.new.disk) }
        ensures durable { D.tells →
            OnOk result ((c : List ℕ) → D.image self.new.disk c → Reads c self.new.frames) }
        ensures any_moment { D.tells → (more : List (List ℕ)) → IsRun run.now more →
            LeavesOnly D.moment D.left_since self.old.disk self.new.disk (BeforeOrAll self.old.frames more) }

        // When it fails, and what that leaves.
        ensures fault { OnErr result (Rose (D.faults self.old.disk) (D.faults self.new.disk)) }
        ensures no_fault { OnOk result (D.faults self.new.disk ≡ D.faults self.old.disk) }
        ensures stalled { OnErr result (self.new.stalled ≡ true) }

        // The disk's counts and its setting.
        ensures changes { OnOk result (RisesBy 2 (D.changes self.old.disk) (D.changes self.new.disk)) }
        ensures called { IsCalled D.Disk 2 self.old.disk self.new.disk }
    {
        self.stalled = true;
        add(&mut self.disk, self.gate, run)?;
        let number = self.count;
        self.gate += run.len() as u64;
        self.count += count;
        self.stalled = false;
        Ok(number)
    }

    /// The size of the log on the disk, unless it is stalled.
    pub fn bytes(&self) -> u64
        ensures { result ≡ self.now.bytes }
    {
        self.gate + 1
    }

    /// How many frames it has.
    pub fn count(&self) -> u64
        ensures { D.tells → self.now.stalled ≡ false → result ≡ length self.now.frames }
    {
        self.count
    }

    /// Whether a call that adds frames or replaces them has failed.
    pub fn stalled(&self) -> bool
        ensures { result ≡ self.now.stalled }
    {
        self.stalled
    }

    /// Its disk as it is now, for proofs alone: it reads as the log's frames, and so does what a stop leaves
    /// while the log isn't stalled.
    pub fn anchor(&self) -> Anchor<D>
        ensures disk { result.disk ≡ self.now.disk }
        ensures reads { D.tells → Reads (D.seen self.now.disk) self.now.frames }
        ensures durable { D.tells → self.now.stalled ≡ false →
            (c : List ℕ) → D.image self.now.disk c → Reads c self.now.frames }
    {
        Anchor::at(&self.disk)
    }

    /// Gives the disk back, which reads as the log's frames.
    pub fn into_disk(self) -> D
        ensures disk { result ≡ self.disk }
        ensures reads { D.tells → Reads (D.seen result) self.frames }
        ensures durable { D.tells → self.stalled ≡ false →
            (c : List ℕ) → D.image result c → Reads c self.frames }
    {
        let Log {
            disk,
            gate: _,
            count: _,
            stalled: _,
            buffer: _,
        } = self;
        disk
    }
}

impl<D: Arm> Log<D> {
    /// Tells its disk after how many changes to stop. Nothing else of the log changes.
    pub fn arm(&mut self, changes: u64, bytes: u64)
        ensures log { self.new ≡ record self.old { disk = self.new.disk } }
        ensures set { D.Arm.arms changes bytes self.old.disk self.new.disk }
        ensures seen { D.seen self.new.disk ≡ D.seen self.old.disk }
        ensures images { (c : List ℕ) → D.image self.new.disk c ↔ D.image self.old.disk c }
        ensures moment { D.moment self.new.disk ≡ D.moment self.old.disk }
        ensures since { (t : ℕ) (c : List ℕ) →
            D.left_since self.new.disk t c ↔ D.left_since self.old.disk t c }
        ensures faults { D.faults self.new.disk ≡ D.faults self.old.disk }
        ensures changes { D.changes self.new.disk ≡ 0 }
    {
        self.disk.arm(changes, bytes);
    }
}

// Writes a run after the closed gate, and opens the gate once it is on the disk.
fn add<D: Disk>(disk: &mut D, gate: u64, run: &[u8]) -> Result<(), Failed>
    requires place { D.tells → length (D.seen disk.old) ≡ gate + 1 }
    requires room { gate + 1 < 2 ^ 64 }
    requires some { 0 < length run.now }
    requires only { Only (D.seen disk.old) (D.image disk.old) }
    ensures added { D.tells → (frames more : List (List ℕ)) →
        IsWhole (D.seen disk.old) gate frames → IsRun run.now more →
        OnOk result ((D.seen disk.new ≡ take 10 (D.seen disk.old) ++ image_of (frames ++ more))
        × IsWhole (D.seen disk.new) (gate + length run.now) (frames ++ more)) }
    ensures durable { OnOk result (Only (D.seen disk.new) (D.image disk.new)) }
    ensures any_moment { D.tells → (frames more : List (List ℕ)) →
        IsWhole (D.seen disk.old) gate frames → IsRun run.now more →
        LeavesOnly D.moment D.left_since disk.old disk.new (BeforeOrAll frames more) }
    ensures fault { OnErr result (Rose (D.faults disk.old) (D.faults disk.new)) }
    ensures no_fault { OnOk result (D.faults disk.new ≡ D.faults disk.old) }
    ensures changes { OnOk result (RisesBy 2 (D.changes disk.old) (D.changes disk.new)) }
    ensures called { IsCalled D.Disk 2 disk.old disk.new }
{
    write_through(disk, gate + 1, run)?;
    write_through(disk, gate, b"+")
}

// Lays a frame out in the buffer.
fn lay(buffer: &mut Vec<u8>, frame: &[u8])
    requires size { IsFrame frame.now }
    requires room { 65541 ≤ vec_capacity buffer.old }
    ensures capacity { vec_capacity buffer.new ≡ vec_capacity buffer.old }
    ensures laid { buffer.new.items ≡ laid frame.now ++ 45 ∷ [] }
{
    buffer.clear();
    lay_frame(buffer, frame);
}
