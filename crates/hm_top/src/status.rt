//! How a run ends, and the last line that says so.
ghost use Rattle.std.specs.Prelude.{◌≡◌, Some};
ghost use Rattle.hm_top.specs.Ending.{early_status, halted_status, unopened_status};

use hm_hall::Halt;
use hm_journal::JournalWhy;
use hm_script::Bad;
use std::fmt;
use thiserror::Error;

/// Why a log is refused.
#[derive(Clone, Copy, Debug, PartialEq, Eq, Error)]
pub enum LogWhy {
    /// The bytes are no log, which this place of them shows.
    NotALog(u64),
    /// The frame at this place is bad.
    BadFrame(u64),
    /// The frame of this number is no entry, from this byte of it on.
    BadEntry { number: u64, at: u64 },
    /// The entry of this number breaks this rule.
    Illegal { number: u64, rule: u8 },
    /// The journal has other sheets of this kind.
    SheetsDiffer(u8),
    /// The journal has this many entries, with those that its base stands for, where it should have one at most.
    NotEmpty(u64),
}

impl fmt::Display for LogWhy {
    ghost use Rattle.hm_top.specs.Status.{log_text};

    ghost output = { λ w. Some (log_text w) };

    fn fmt<W: fmt::Write>(&self, f: &mut fmt::Formatter<W>) -> fmt::Result {
        match self {
            LogWhy::NotALog(at) => write!(f, "NotALog {at}"),
            LogWhy::BadFrame(at) => write!(f, "BadFrame {at}"),
            LogWhy::BadEntry { number, at } => write!(f, "BadEntry {number} {at}"),
            LogWhy::Illegal { number, rule } => write!(f, "Illegal {number} {rule}"),
            LogWhy::SheetsDiffer(kind) => write!(f, "SheetsDiffer {kind}"),
            LogWhy::NotEmpty(entries) => write!(f, "NotEmpty {entries}"),
        }
    }
}

/// Why a conversation ends early.
#[derive(Clone, Copy, Debug, PartialEq, Eq)]
pub enum EarlyEnd {
    /// The journal was halted in the opening.
    Halted(Halt),
    /// The sink failed.
    WriteFault,
    /// Memory ran out.
    Memory,
}

/// How a run ends. Done, WriteFault and Memory write no last line.
#[derive(Clone, Copy, Debug, PartialEq, Eq)]
pub enum RunStatus {
    /// All commands were answered.
    Done,
    /// The index of the first word that fits no place, or the number of words where one is missing.
    Usage(u64),
    /// The script is refused.
    BadScript(Bad),
    /// A call on the disk failed.
    LogFault,
    /// The disk holds no journal of these handlers' sheets.
    LogRefused(LogWhy),
    /// The source failed.
    ReadFault,
    /// The sink failed.
    WriteFault,
    /// The next entry would have passed the hard mark; the log has this many bytes.
    JournalFull(u64),
    /// Memory ran out.
    Memory,
}

impl RunStatus {
    ghost use Rattle.hm_top.specs.Status.{status_code};

    /// The exit status of the program.
    pub fn code(self) -> u8
        ensures { result ≡ status_code self }
    {
        match self {
            RunStatus::Done => 0,
            RunStatus::Usage(_) => 2,
            RunStatus::BadScript(_) => 3,
            RunStatus::LogFault => 4,
            RunStatus::LogRefused(_) => 5,
            RunStatus::ReadFault => 6,
            RunStatus::WriteFault => 7,
            RunStatus::JournalFull(_) => 8,
            RunStatus::Memory => 9,
        }
    }
}

impl fmt::Display for RunStatus {
    ghost use Rattle.hm_top.specs.Status.{last_line};

    ghost output = { λ s. Some (last_line s) };

    fn fmt<W: fmt::Write>(&self, f: &mut fmt::Formatter<W>) -> fmt::Result {
        match self {
            RunStatus::Done | RunStatus::WriteFault | RunStatus::Memory => Ok(()),
            RunStatus::Usage(word) => write!(f, "hmaster: usage: word {word}\n"),
            RunStatus::BadScript(bad) => {
                let line = bad.line;
                let why = bad.why;
                write!(f, "hmaster: script: line {line}: {why}\n")
            }
            RunStatus::LogFault => write!(f, "hmaster: log fault\n"),
            RunStatus::LogRefused(why) => write!(f, "hmaster: log refused: {why}\n"),
            RunStatus::ReadFault => write!(f, "hmaster: read fault\n"),
            RunStatus::JournalFull(bytes) => write!(f, "hmaster: journal full: {bytes}\n"),
        }
    }
}

/// How a run ends whose log couldn't be opened.
pub(crate) fn status_of(why: JournalWhy) -> RunStatus
    ensures { result ≡ unopened_status why }
{
    match why {
        JournalWhy::Fault => RunStatus::LogFault,
        JournalWhy::NotALog(at) => RunStatus::LogRefused(LogWhy::NotALog(at)),
        JournalWhy::BadFrame(at) => RunStatus::LogRefused(LogWhy::BadFrame(at)),
        JournalWhy::BadEntry { number, at } => {
            RunStatus::LogRefused(LogWhy::BadEntry { number, at })
        }
        JournalWhy::Illegal { number, rule } => {
            RunStatus::LogRefused(LogWhy::Illegal { number, rule })
        }
        JournalWhy::SheetsDiffer(kind) => RunStatus::LogRefused(LogWhy::SheetsDiffer(kind)),
        JournalWhy::Memory => RunStatus::Memory,
    }
}

/// How a run ends that was halted by this, or by nothing.
pub(crate) fn status_of_halt(halted: Option<Halt>) -> RunStatus
    ensures { result ≡ halted_status halted }
{
    match halted {
        None => RunStatus::Done,
        Some(Halt::LogFault) => RunStatus::LogFault,
        Some(Halt::JournalFull(bytes)) => RunStatus::JournalFull(bytes),
    }
}

/// How a run ends that ended early.
pub(crate) fn status_of_end(end: EarlyEnd) -> RunStatus
    ensures { result ≡ early_status end }
{
    match end {
        EarlyEnd::Halted(why) => status_of_halt(Some(why)),
        EarlyEnd::WriteFault => RunStatus::WriteFault,
        EarlyEnd::Memory => RunStatus::Memory,
    }
}
