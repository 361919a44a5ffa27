ghost use Rattle.std.specs.Prelude.{◌≡◌};
ghost use Rattle.hm_workers.specs.Ends.{end_for};

use hm_hall::HallFault;

/// How a worker ended.
#[derive(Clone, Copy, Debug, PartialEq, Eq)]
pub enum WorkEnd {
    /// There was nothing to do, and nobody was at work.
    Idle,
    /// The hall is stopped.
    Halted,
    /// Memory ran out.
    Memory,
}

/// How a worker ends that meets a fault.
pub(crate) fn end_of(fault: HallFault) -> WorkEnd
    ensures { result ≡ end_for fault }
{
    match fault {
        HallFault::Memory => WorkEnd::Memory,
        HallFault::LogFault | HallFault::JournalFull(_) | HallFault::Halted(_) => WorkEnd::Halted,
    }
}
