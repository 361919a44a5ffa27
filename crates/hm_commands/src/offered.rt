//! Which commands a script may have.
use hm_script::{Command, Commands, Program};

/// The commands that are offered so far.
pub struct Offered;

impl Commands for Offered {
    ghost use Rattle.hm_commands.specs.Offered.{offered};

    ghost reader = { offered };

    fn program() -> Program {
        Program::Run
    }

    fn most_regions() -> u64 {
        2
    }

    fn has(command: &Command) -> bool {
        match command {
            Command::Namespace { .. }
            | Command::DropNamespace { .. }
            | Command::Create { .. }
            | Command::Delete { .. }
            | Command::Enable { .. }
            | Command::Disable { .. }
            | Command::Modify { .. }
            | Command::Split { .. }
            | Command::Merge { .. }
            | Command::Move { .. }
            | Command::Abort { .. }
            | Command::Server { .. }
            | Command::Die { .. }
            | Command::Expire { .. }
            | Command::Refuse { .. }
            | Command::RefuseStorage { .. }
            | Command::Step { .. }
            | Command::Settle
            | Command::Lose
            | Command::Repeat
            | Command::Balance
            | Command::Procs
            | Command::ProcsJson
            | Command::Regions
            | Command::Locks
            | Command::Servers => true,
            Command::Workers { .. }
            | Command::Drain { .. }
            | Command::Undrain { .. }
            | Command::Backoff { .. }
            | Command::Tick { .. }
            | Command::Timers
            | Command::Group { .. }
            | Command::TableGroup { .. }
            | Command::Hbck
            | Command::Roll
            | Command::Cut { .. }
            | Command::Reopen
            | Command::Follow
            | Command::Takeover
            | Command::Old { .. } => false,
        }
    }
}
