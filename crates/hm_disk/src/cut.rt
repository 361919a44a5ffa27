//! A disk that stops at a chosen change.
ghost use Rattle.std.specs.Prelude.{◌≡◌, ◌⊎◌, ◌+◌, ◌≤◌, ◌<◌, ◌↔◌, List, ℕ, length, take, drop, min, IsTrue, IsErr, IfOk, OnOk, OnErr};
ghost use Rattle.hm_ports.specs.Faults.{raised, Rose};
ghost use Rattle.hm_disk.specs.Disk.{written, Torn, CutOrWhole, Follows, Only, Elapses, RisesBy};
ghost use Rattle.hm_disk.specs.Cutting.{IsCut, armed, disarmed, new_cut, stopped, after_change, passed};

use crate::Disk;
use hm_ports::{Failed, raise};
use std::marker::Model;

/// So many changes, and of the next one so many bytes.
#[derive(Clone, Copy, Debug, PartialEq, Eq, Drop)]
pub struct Limit {
    pub changes: u64,
    pub bytes: u64,
}

/// What a disk was told last: the limit that it is armed with, if it is, and how many faults of its own
/// it had then.
#[derive(Clone, Copy, Debug, PartialEq, Eq, Drop)]
pub struct Arming {
    pub limit: Option<Limit>,
    pub faults: u64,
}

/// A disk that can be told to stop. Neither call changes what it reads, its images or its faults.
pub trait Arm: Disk {
    /// What `arm` with these numbers makes of the disk before.
    ghost arms: { ℕ → ℕ → Self → Self → Type 0 };

    /// What `disarm` makes of it.
    ghost disarms: { Self → Self → Type 0 };

    /// From now on it passes so many calls of `write_at` and `cut`. Of the next one, if it is a write,
    /// it passes so many bytes from its start. That call and every later one of any kind fail.
    fn arm(&mut self, changes: u64, bytes: u64)
        ensures arms { arms changes bytes self.old self.new }
        ensures seen { Self.seen self.new ≡ Self.seen self.old }
        ensures images { (c : List ℕ) → Self.image self.new c ↔ Self.image self.old c }
        ensures moment { Self.moment self.new ≡ Self.moment self.old }
        ensures since { (t : ℕ) (c : List ℕ) → Self.left_since self.new t c ↔ Self.left_since self.old t c }
        ensures faults { Self.faults self.new ≡ Self.faults self.old }
        ensures changes { Self.changes self.new ≡ 0 };

    /// From now on it passes each call.
    fn disarm(&mut self)
        ensures disarms { disarms self.old self.new }
        ensures seen { Self.seen self.new ≡ Self.seen self.old }
        ensures images { (c : List ℕ) → Self.image self.new c ↔ Self.image self.old c }
        ensures moment { Self.moment self.new ≡ Self.moment self.old }
        ensures since { (t : ℕ) (c : List ℕ) → Self.left_since self.new t c ↔ Self.left_since self.old t c }
        ensures faults { Self.faults self.new ≡ Self.faults self.old }
        ensures changes { Self.changes self.new ≡ Self.changes self.old };
}

/// A disk over another one, which stops where it is told to.
#[derive(Drop)]
pub struct CutDisk<D: Disk> {
    inner: D,
    arming: Arming,
    changes: u64,
    faults: u64,
}

impl<D: Disk> Model for CutDisk<D> {
    ghost use Rattle.hm_disk.specs.Cutting.{CutView, IsOwed};

    ghost Value = { CutView D };

    ghost view = { λ d. record { inner = d.inner; arming = d.arming; changes = d.changes; faults = d.faults } };

    ghost invariant = { λ d. IsOwed d.arming d.changes d.faults };
}

impl<D: Disk> CutDisk<D> {
    /// Over this disk, disarmed.
    pub fn new(inner: D) -> CutDisk<D>
        ensures { result ≡ new_cut inner }
    {
        CutDisk {
            inner,
            arming: Arming {
                limit: None,
                faults: 0,
            },
            changes: 0,
            faults: 0,
        }
    }

    /// The disk below. It had faults of its own since it was told last only if it is cut.
    pub fn inner(self) -> D
        ensures inner { result ≡ self.inner }
        ensures own { (self.faults ≡ self.arming.faults) ⊎ IsCut self.arming self.changes }
    {
        self.inner
    }
}

// Whether there were more changes than the limit lets pass.
fn is_cut(arming: &Arming, changes: u64) -> bool
    ensures { IsTrue result ↔ IsCut arming.now changes }
{
    match arming.limit {
        Some(limit) => limit.changes < changes,
        None => false,
    }
}

impl<D: Disk> Arm for CutDisk<D> {
    ghost arms = { λ changes bytes old new. new ≡ armed changes bytes old };

    ghost disarms = { λ old new. new ≡ disarmed old };

    fn arm(&mut self, changes: u64, bytes: u64)
        ensures set { self.new ≡ armed changes bytes self.old }
        ensures seen { D.seen self.new.inner ≡ D.seen self.old.inner }
        ensures images { (c : List ℕ) → D.image self.new.inner c ↔ D.image self.old.inner c }
        ensures moment { D.moment self.new.inner ≡ D.moment self.old.inner }
        ensures since { (t : ℕ) (c : List ℕ) → D.left_since self.new.inner t c ↔ D.left_since self.old.inner t c }
        ensures faults { D.faults self.new.inner + self.new.faults ≡ D.faults self.old.inner + self.old.faults }
        ensures changes { self.new.changes ≡ 0 }
    {
        self.arming = Arming {
            limit: Some(Limit { changes, bytes }),
            faults: self.faults,
        };
        self.changes = 0;
    }

    fn disarm(&mut self)
        ensures set { self.new ≡ disarmed self.old }
        ensures seen { D.seen self.new.inner ≡ D.seen self.old.inner }
        ensures images { (c : List ℕ) → D.image self.new.inner c ↔ D.image self.old.inner c }
        ensures moment { D.moment self.new.inner ≡ D.moment self.old.inner }
        ensures since { (t : ℕ) (c : List ℕ) → D.left_since self.new.inner t c ↔ D.left_since self.old.inner t c }
        ensures faults { D.faults self.new.inner + self.new.faults ≡ D.faults self.old.inner + self.old.faults }
        ensures changes { self.new.changes ≡ self.old.changes }
    {
        self.arming = Arming {
            limit: None,
            faults: self.faults,
        };
    }
}

impl<D: Disk> Disk for CutDisk<D> {
    type Setting = Arming;

    ghost tells = { D.tells };

    ghost seen = { λ d. D.seen d.inner };

    ghost image = { λ d. D.image d.inner };

    ghost moment = { λ d. D.moment d.inner };

    ghost left_since = { λ d. D.left_since d.inner };

    ghost faults = { λ d. D.faults d.inner + d.faults };

    ghost changes = { λ d. d.changes };

    ghost setting = { λ d. d.arming };

    ghost reads_now = { λ d. D.reads_now d.inner };

    ghost counts_now = { λ d. D.counts_now d.inner };

    ghost only_now = { λ d. D.only_now d.inner };

    fn size(&mut self) -> Result<u64, Failed>
        ensures size { D.tells → IfOk result (λ n. n ≡ length (D.seen self.old.inner)) }

        // Once it is cut it fails, and else it passes the call.
        ensures cut { IsCut self.old.arming self.old.changes → IsErr result × (self.new ≡ stopped self.old) }
        ensures passes { (IsCut self.old.arming self.old.changes → ⊥) →
            self.new ≡ record self.old { inner = self.new.inner } }

        ensures seen { D.seen self.new.inner ≡ D.seen self.old.inner }
        ensures images { (c : List ℕ) → D.image self.new.inner c ↔ D.image self.old.inner c }
        ensures moment { D.moment self.new.inner ≡ D.moment self.old.inner }
        ensures time { Elapses (D.moment self.old.inner) (D.moment self.new.inner)
            (D.left_since self.old.inner) (D.left_since self.new.inner) (D.image self.new.inner) }
        ensures fault { OnErr result (Rose (D.faults self.old.inner + self.old.faults)
            (D.faults self.new.inner + self.new.faults)) }
        ensures faults { D.faults self.old.inner + self.old.faults ≤ D.faults self.new.inner + self.new.faults }
        ensures no_fault { OnOk result (D.faults self.new.inner + self.new.faults ≡ D.faults self.old.inner + self.old.faults) }
        ensures changes { self.new.changes ≡ self.old.changes }
        ensures setting { self.new.arming ≡ self.old.arming }
    {
        if is_cut(&self.arming, self.changes) {
            raise(&mut self.faults);
            return Err(Failed);
        }
        self.inner.size()
    }

    fn read_at(&mut self, at: u64, into: &mut [u8]) -> Result<(), Failed>
        requires { D.tells → at + length into.old ≤ length (D.seen self.old.inner) }
        ensures read { D.tells →
            OnOk result (into.new ≡ take (length into.old) (drop at (D.seen self.old.inner))) }

        // Once it is cut it fails, and else it passes the call.
        ensures cut { IsCut self.old.arming self.old.changes → IsErr result × (self.new ≡ stopped self.old) }
        ensures passes { (IsCut self.old.arming self.old.changes → ⊥) →
            self.new ≡ record self.old { inner = self.new.inner } }

        ensures seen { D.seen self.new.inner ≡ D.seen self.old.inner }
        ensures images { (c : List ℕ) → D.image self.new.inner c ↔ D.image self.old.inner c }
        ensures moment { D.moment self.new.inner ≡ D.moment self.old.inner }
        ensures time { Elapses (D.moment self.old.inner) (D.moment self.new.inner)
            (D.left_since self.old.inner) (D.left_since self.new.inner) (D.image self.new.inner) }
        ensures fault { OnErr result (Rose (D.faults self.old.inner + self.old.faults)
            (D.faults self.new.inner + self.new.faults)) }
        ensures faults { D.faults self.old.inner + self.old.faults ≤ D.faults self.new.inner + self.new.faults }
        ensures no_fault { OnOk result (D.faults self.new.inner + self.new.faults ≡ D.faults self.old.inner + self.old.faults) }
        ensures changes { self.new.changes ≡ self.old.changes }
        ensures setting { self.new.arming ≡ self.old.arming }
    {
        if is_cut(&self.arming, self.changes) {
            raise(&mut self.faults);
            return Err(Failed);
        }
        self.inner.read_at(at, into)
    }

    fn write_at(&mut self, at: u64, bytes: &[u8]) -> Result<(), Failed>
        requires place { D.tells → at ≤ length (D.seen self.old.inner) }
        requires some { 0 < length bytes.now }

        // Once it is cut it passes nothing. The write that is cut it passes in part, and any other whole.
        ensures cut { IsCut self.old.arming self.old.changes →
            IsErr result × (self.new ≡ stopped (after_change self.old)) }
        ensures cuts { IsCut self.old.arming (raised self.old.changes) →
            IsErr result × (self.new ≡ record (stopped (after_change self.old)) { inner = self.new.inner }) }
        ensures front { D.tells → IsCut self.old.arming (raised self.old.changes) →
            Torn at (passed self.old.arming (length bytes.now)) (D.seen self.old.inner) (D.seen self.new.inner) }
        ensures front_done { D.tells →
            IsCut self.old.arming (raised self.old.changes) → (IsCut self.old.arming self.old.changes → ⊥) →
            (D.seen self.new.inner ≡ written at (take (passed self.old.arming (length bytes.now)) bytes.now) (D.seen self.old.inner))
            ⊎ Rose (D.faults self.old.inner) (D.faults self.new.inner) }
        ensures passes { (IsCut self.old.arming (raised self.old.changes) → ⊥) →
            self.new ≡ record (after_change self.old) { inner = self.new.inner } }
        ensures written { D.tells →
            OnOk result (D.seen self.new.inner ≡ written at bytes.now (D.seen self.old.inner)) }

        ensures part { D.tells →
            Torn at (length bytes.now) (D.seen self.old.inner) (D.seen self.new.inner) }
        ensures crash { Follows (Torn at (length bytes.now)) (D.image self.old.inner) (D.image self.new.inner) }
        ensures time { Elapses (D.moment self.old.inner) (D.moment self.new.inner)
            (D.left_since self.old.inner) (D.left_since self.new.inner) (D.image self.new.inner) }
        ensures fault { OnErr result (Rose (D.faults self.old.inner + self.old.faults)
            (D.faults self.new.inner + self.new.faults)) }
        ensures faults { D.faults self.old.inner + self.old.faults ≤ D.faults self.new.inner + self.new.faults }
        ensures no_fault { OnOk result (D.faults self.new.inner + self.new.faults ≡ D.faults self.old.inner + self.old.faults) }
        ensures changes { RisesBy 1 self.old.changes self.new.changes }
        ensures setting { self.new.arming ≡ self.old.arming }
    {
        let was_cut = is_cut(&self.arming, self.changes);
        raise(&mut self.changes);
        if is_cut(&self.arming, self.changes) {
            raise(&mut self.faults);
            if !was_cut {
                write_front(&mut self.inner, at, bytes, &self.arming);
            }
            return Err(Failed);
        }
        self.inner.write_at(at, bytes)
    }

    fn cut(&mut self, size: u64) -> Result<(), Failed>
        requires place { D.tells → size ≤ length (D.seen self.old.inner) }

        // Once more changes came than it passes it passes none, and else the whole call.
        ensures cuts { IsCut self.old.arming (raised self.old.changes) →
            IsErr result × (self.new ≡ stopped (after_change self.old)) }
        ensures passes { (IsCut self.old.arming (raised self.old.changes) → ⊥) →
            self.new ≡ record (after_change self.old) { inner = self.new.inner } }
        ensures cut { D.tells → OnOk result (D.seen self.new.inner ≡ take size (D.seen self.old.inner)) }

        ensures part { D.tells → CutOrWhole size (D.seen self.old.inner) (D.seen self.new.inner) }
        ensures crash { Follows (CutOrWhole size) (D.image self.old.inner) (D.image self.new.inner) }
        ensures time { Elapses (D.moment self.old.inner) (D.moment self.new.inner)
            (D.left_since self.old.inner) (D.left_since self.new.inner) (D.image self.new.inner) }
        ensures fault { OnErr result (Rose (D.faults self.old.inner + self.old.faults)
            (D.faults self.new.inner + self.new.faults)) }
        ensures faults { D.faults self.old.inner + self.old.faults ≤ D.faults self.new.inner + self.new.faults }
        ensures no_fault { OnOk result (D.faults self.new.inner + self.new.faults ≡ D.faults self.old.inner + self.old.faults) }
        ensures changes { RisesBy 1 self.old.changes self.new.changes }
        ensures setting { self.new.arming ≡ self.old.arming }
    {
        raise(&mut self.changes);
        if is_cut(&self.arming, self.changes) {
            raise(&mut self.faults);
            return Err(Failed);
        }
        self.inner.cut(size)
    }

    fn sync(&mut self) -> Result<(), Failed>
        ensures durable { OnOk result (Only (D.seen self.old.inner) (D.image self.new.inner)) }

        // Once it is cut it fails, and else it passes the call.
        ensures cut { IsCut self.old.arming self.old.changes → IsErr result × (self.new ≡ stopped self.old) }
        ensures passes { (IsCut self.old.arming self.old.changes → ⊥) →
            self.new ≡ record self.old { inner = self.new.inner } }

        ensures seen { D.seen self.new.inner ≡ D.seen self.old.inner }
        ensures crash { (c : List ℕ) → D.image self.new.inner c → D.image self.old.inner c }
        ensures time { Elapses (D.moment self.old.inner) (D.moment self.new.inner)
            (D.left_since self.old.inner) (D.left_since self.new.inner) (D.image self.new.inner) }
        ensures fault { OnErr result (Rose (D.faults self.old.inner + self.old.faults)
            (D.faults self.new.inner + self.new.faults)) }
        ensures faults { D.faults self.old.inner + self.old.faults ≤ D.faults self.new.inner + self.new.faults }
        ensures no_fault { OnOk result (D.faults self.new.inner + self.new.faults ≡ D.faults self.old.inner + self.old.faults) }
        ensures changes { self.new.changes ≡ self.old.changes }
        ensures setting { self.new.arming ≡ self.old.arming }
    {
        if is_cut(&self.arming, self.changes) {
            raise(&mut self.faults);
            return Err(Failed);
        }
        self.inner.sync()
    }
}

// Writes as many bytes of a write that is cut as are to pass.
fn write_front<D: Disk>(disk: &mut D, at: u64, bytes: &[u8], arming: &Arming)
    requires place { D.tells → at ≤ length (D.seen disk.old) }
    ensures done { D.tells →
        (D.seen disk.new ≡ written at (take (passed arming.now (length bytes.now)) bytes.now) (D.seen disk.old))
        ⊎ Rose (D.faults disk.old) (D.faults disk.new) }
    ensures part { D.tells → Torn at (passed arming.now (length bytes.now)) (D.seen disk.old) (D.seen disk.new) }
    ensures crash { Follows (Torn at (length bytes.now)) (D.image disk.old) (D.image disk.new) }
    ensures time { Elapses (D.moment disk.old) (D.moment disk.new)
        (D.left_since disk.old) (D.left_since disk.new) (D.image disk.new) }
    ensures faults { D.faults disk.old ≤ D.faults disk.new }
{
    let Some(limit) = arming.limit else {
        return;
    };
    let count = limit.bytes.min(bytes.len() as u64) as usize;
    if count > 0 {
        let _ = disk.write_at(at, &bytes[..count]);
    }
}
