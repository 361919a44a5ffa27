//! Traits of a log that is lent to be written, armed, or given up, as those see it who record on it.
ghost use Rattle.std.specs.Prelude.{◌≡◌, ◌≤◌, ℕ, IfSome, IsErrOf, None, true, is_some, option_map};
ghost use Rattle.hm_ports.specs.Faults.{Rose};
ghost use Rattle.hm_lend.specs.Outs.{OutView};
ghost use Rattle.hm_lend.specs.Recording.{Backs, GivesUp, Lends, MayReturn, out_of};

use crate::recorder::Recorder;
use hm_hall::RecordFault;

/// A log that is out, with what is to be written.
pub trait Writer {
    /// What the value that lent it has for good.
    type Terms;

    // What it went out with, and whether it was written.
    ghost out: { Self → OutView Self.Terms };

    // How often its device failed.
    ghost faults: { Self → ℕ };

    // How often its device had failed when it went out.
    ghost since: { Self → ℕ };

    /// Writes what it went out with. A second call does nothing. It takes no memory.
    fn write(&mut self)
        ensures written { out self.new ≡ record (out self.old) { written = true } }
        ensures later { faults self.old ≤ faults self.new }
        ensures since { since self.new ≡ since self.old };
}

/// A recorder that lends its log, so that it is written while entries are recorded.
pub trait Lender: Recorder {
    type Out: Writer<Terms = Self::Opened> + Send;

    /// Lends the log with all that isn't durable. What was made ready is forgotten.
    fn lend(&mut self) -> Option<Self::Out>
        ensures lends { Lends (Self.opened self.old) (Self.kept self.old) (option_map Self.Out.out result) (Self.kept self.new) }
        ensures since { IfSome result (λ out. Self.Out.since out ≡ Self.faults self.old) }
        ensures faults { Self.faults self.new ≡ Self.faults self.old }
        ensures opened { Self.opened self.new ≡ Self.opened self.old };

    /// Takes the log back that it lent, once it was written, and tells how many entries are durable. It fails only where
    /// the device failed since the log went out.
    fn back(&mut self, out: Self::Out) -> Result<u64, RecordFault>
        requires { MayReturn (Self.opened self.old) (Self.kept self.old) (Self.Out.out out) }
        ensures backs { Backs (Self.kept self.old) (Self.Out.out out) result (Self.kept self.new) }
        ensures fault { IsErrOf result RecordFault.LogFault → Rose (Self.Out.since out) (Self.Out.faults out) }
        ensures later { Self.faults self.old ≤ Self.faults self.new }
        ensures opened { Self.opened self.new ≡ Self.opened self.old };
}

/// A recorder whose device is armed to fail after so many changes and bytes, for tests of stops. It begins anew there.
pub trait Rearm: Recorder {
    fn arm(&mut self, changes: u64, bytes: u64)
        requires { out_of (Self.kept self.old) ≡ None }
        ensures kept { Self.kept self.new ≡ Self.kept self.old }
        ensures faults { Self.faults self.new ≡ Self.faults self.old };
}

/// A recorder that gives its log up for good: it stays out from then on, as for a flush that never comes back.
pub trait Yields: Recorder {
    type Log;

    /// Gives the log up, where it is in.
    fn give_up(&mut self) -> Option<Self::Log>
        ensures gives { GivesUp (Self.kept self.old) (is_some result) (Self.kept self.new) }
        ensures faults { Self.faults self.new ≡ Self.faults self.old }
        ensures opened { Self.opened self.new ≡ Self.opened self.old };
}
