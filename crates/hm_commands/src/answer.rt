//! What the run answers.
ghost use Rattle.std.specs.Prelude.{◌≡◌, ◌++◌, codes};
ghost use Rattle.std.specs.Fmt.{decimal};
ghost use Rattle.std.specs.List.{flat_map};
ghost use Rattle.hm_names.specs.Servers.{server_text};
ghost use Rattle.hm_commands.specs.Answer.{answer_text, expired_text, halt_text, refusal_detail, refusal_number, refusal_text, refusal_word, up_text};
ghost use Rattle.hm_commands.specs.Pieces.{piece_text};

use crate::piece::{NONE, Piece};
use crate::row_names::row_name;
use Piece::{Bytes, Number, Server, Text};
use hm_data::{Act, Phase};
use hm_hall::Halt;
use hm_names::{Ns, ServerName};
use hm_show::state_name;

/// Why a command is refused. What it names is told beside it.
#[derive(Clone, Copy)]
pub enum Refusal {
    /// The lowest number of what is wrong with a request by itself.
    BadArgs(u8),
    /// Another request was submitted under the nonce, which made this procedure.
    NonceClash(u64),
    /// So many region ids were drawn for the table that the new ones don't fit any more.
    TooManyRegions(u64),
    /// The journal has reached its soft mark at this many bytes, and takes no submission.
    JournalFull(u64),
    /// There is no such procedure, or no such server ever came up.
    Unknown,
    /// The procedure is no root; this one is its root.
    Child(u64),
    /// The root has failed or ended, and is in this phase.
    Finished(Phase),
    /// The root runs a row next, which does this, that is after the point.
    TooLate(Option<Act>),
    /// A server of this host and port came up with this start code, which isn't lower.
    OldStart(u64),
    /// The server is live.
    Known,
    /// The server isn't live any more.
    AlreadyDown,
    /// No server of this name runs.
    NoServer,
    /// So many procedures are unfinished, which an image can't hold.
    Unsettled(u64),
    /// The image would carry this number, which is too great.
    TooOld(u64),
    /// The ticks would go past the last one.
    Late,
    /// There is no such group.
    NoGroup,
    /// The groups don't let the table's regions go to the server.
    NotInGroup,
    /// A table has a group, or a server is drained.
    Grouped,
    /// The second master has taken the first one's place before.
    Alone,
    /// The first master hasn't been deposed.
    Active,
}

/// The lines that the run writes for the opening and for each command. Entries are counted with those that a base stands for.
#[derive(Drop)]
pub enum Answer {
    /// The log is open; so many entries were recorded.
    Opened(u64),
    /// The submission was recorded as this procedure.
    Pid(u64),
    /// The submission had been recorded as this procedure before.
    Repeated(u64),
    Refused(Refusal),
    /// The root is aborted.
    Aborting(u64),
    /// The root was aborted before.
    AbortingAlready(u64),
    /// The server came up.
    Up(ServerName),
    /// The server came up in place of an older one, whose crash this procedure sees to.
    UpInPlaceOf {
        older: ServerName,
        pid: u64,
        server: ServerName,
    },
    /// The server is held to be dead, and this procedure sees to its crash.
    Expired {
        server: ServerName,
        pid: u64,
    },
    /// The server runs no longer.
    Dead(ServerName),
    /// Some of the next calls are refused.
    Armed,
    /// So many tasks were done, with so many entries recorded then.
    Stepped(u64, u64),
    /// All roots have ended, with so many entries recorded.
    Settled(u64),
    /// Nothing can go on, with so many entries recorded, and so many roots haven't ended.
    Waiting(u64, u64),
    /// So many calls and reports were lost.
    Lost(u64),
    /// So many calls and reports travel once more.
    Resent(u64),
    /// A table, whole.
    Table(Vec<u8>),
    /// The regions were balanced: a line for the plan, and one for each move, up to the first that wasn't recorded.
    Balanced(Vec<u8>),
    /// Nothing is recorded any more, for this reason, which came now or before.
    Halted(Halt),
    /// An image took the place of the entries, with so many recorded.
    Rolled(u64),
    /// New sheets were adopted; this is the lowest kind of those that differ from the ones before.
    Adopted(u8),
    /// The master stopped and began again, with so many entries recorded.
    Reopened(u64),
    /// The second master has read so many entries.
    Followed(u64),
    /// The second master has taken the first one's place in this epoch, with so many entries recorded.
    Epoch(u64, u64),
    /// The first master was deposed by this epoch.
    Deposed(u64),
    /// The first delay after an open that failed has so many ticks.
    Backoff(u8),
    /// It is now this tick, and so many timers ended.
    Ticked(u64, u64),
    /// The group has as many servers as were named.
    Group(Ns, u64),
    /// The table has the group.
    Grouped,
    /// A server is drained: a line with how many regions have to leave it, and one for the submission of each.
    Draining(Vec<u8>),
    /// The server may get regions again.
    Undrained(ServerName),
}

impl Refusal {
    // Its first word, with a space where more follows.
    fn word(&self) -> &str
        ensures { result.now ≡ refusal_word self.now }
    {
        match self {
            Refusal::BadArgs(_) => "BadArgs ",
            Refusal::NonceClash(_) => "NonceClash ",
            Refusal::TooManyRegions(_) => "TooManyRegions ",
            Refusal::JournalFull(_) => "JournalFull ",
            Refusal::Unknown => "Unknown",
            Refusal::Child(_) => "Child ",
            Refusal::Finished(_) => "Finished ",
            Refusal::TooLate(_) => "TooLate ",
            Refusal::OldStart(_) => "OldStart ",
            Refusal::Known => "Known",
            Refusal::AlreadyDown => "AlreadyDown",
            Refusal::NoServer => "NoServer",
            Refusal::Unsettled(_) => "Unsettled ",
            Refusal::TooOld(_) => "TooOld ",
            Refusal::Late => "Late",
            Refusal::NoGroup => "NoGroup",
            Refusal::NotInGroup => "NotInGroup",
            Refusal::Grouped => "Grouped",
            Refusal::Alone => "Alone",
            Refusal::Active => "Active",
        }
    }

    // The word after it.
    fn detail(&self) -> &str
        ensures { result.now ≡ refusal_detail self.now }
    {
        match self {
            Refusal::Finished(phase) => state_name(*phase),
            Refusal::TooLate(Some(act)) => row_name(*act),
            _ => "",
        }
    }

    // The number after it.
    fn number(self) -> Option<u64>
        ensures { result ≡ refusal_number self }
    {
        match self {
            Refusal::BadArgs(number) => Some(u64::from(number)),
            Refusal::NonceClash(pid) => Some(pid),
            Refusal::TooManyRegions(drawn) => Some(drawn),
            Refusal::JournalFull(bytes) => Some(bytes),
            Refusal::Child(root) => Some(root),
            Refusal::OldStart(start) => Some(start),
            Refusal::Unsettled(roots) => Some(roots),
            Refusal::TooOld(number) => Some(number),
            _ => None,
        }
    }
}

impl Answer {
    /// Its lines, in pieces.
    pub fn pieces(&self) -> [Piece<'_>; 7]
        ensures { flat_map piece_text result ≡ answer_text self.now }
    {
        match self {
            Answer::Opened(at) => numbered("opened at ", at, "\n"),
            Answer::Pid(pid) => numbered("pid ", pid, "\n"),
            Answer::Repeated(pid) => numbered("pid ", pid, " repeated\n"),
            Answer::Refused(why) => refused(why),
            Answer::Aborting(pid) => numbered("aborting ", pid, "\n"),
            Answer::AbortingAlready(pid) => numbered("aborting ", pid, " repeated\n"),
            Answer::Up(server) => of_server("up ", server),
            Answer::UpInPlaceOf { older, pid, server } => in_place_of(older, *pid, server),
            Answer::Expired { server, pid } => expired(server, *pid),
            Answer::Dead(server) => of_server("dead ", server),
            Answer::Armed => [Text("armed\n"), NONE, NONE, NONE, NONE, NONE, NONE],
            Answer::Stepped(tasks, at) => numbered_twice("stepped ", tasks, " at ", at),
            Answer::Settled(at) => numbered("settled at ", at, "\n"),
            Answer::Waiting(at, roots) => numbered_twice("waiting at ", at, ": ", roots),
            Answer::Lost(count) => numbered("lost ", count, "\n"),
            Answer::Resent(count) => numbered("repeated ", count, "\n"),
            Answer::Table(lines) | Answer::Balanced(lines) | Answer::Draining(lines) => bytes(
                lines.as_slice(),
            ),
            Answer::Halted(why) => halted(why),
            Answer::Rolled(at) => numbered("rolled at ", at, "\n"),
            Answer::Adopted(kind) => numbered_shortly("adopted ", kind),
            Answer::Reopened(at) => numbered("reopened at ", at, "\n"),
            Answer::Followed(at) => numbered("followed at ", at, "\n"),
            Answer::Epoch(epoch, at) => numbered_twice("epoch ", epoch, " at ", at),
            Answer::Deposed(epoch) => numbered("deposed ", epoch, "\n"),
            Answer::Backoff(ticks) => numbered_shortly("backoff ", ticks),
            Answer::Ticked(at, woken) => numbered_twice("tick at ", at, ": ", woken),
            Answer::Group(name, servers) => of_group(name, *servers),
            Answer::Grouped => [Text("grouped\n"), NONE, NONE, NONE, NONE, NONE, NONE],
            Answer::Undrained(server) => of_server("undrained ", server),
        }
    }
}

// A text by itself.
fn bytes(text: &[u8]) -> [Piece<'_>; 7]
    ensures { flat_map piece_text result ≡ text.now }
{
    [Bytes(text), NONE, NONE, NONE, NONE, NONE, NONE]
}

// Words with a number between them.
fn numbered<'a>(word: &'static str, number: &'a u64, end: &'static str) -> [Piece<'a>; 7]
    ensures { flat_map piece_text result ≡ word.now ++ decimal number.now ++ end.now }
{
    [
        Text(word),
        Number(*number),
        Text(end),
        NONE,
        NONE,
        NONE,
        NONE,
    ]
}

// A line of a word and a short number.
fn numbered_shortly<'a>(word: &'static str, number: &'a u8) -> [Piece<'a>; 7]
    ensures { flat_map piece_text result ≡ word.now ++ decimal number.now ++ codes "\n" }
{
    [
        Text(word),
        Number(u64::from(*number)),
        Text("\n"),
        NONE,
        NONE,
        NONE,
        NONE,
    ]
}

// A line of words with a number behind each.
fn numbered_twice<'a>(
    word: &'static str,
    one: &'a u64,
    between: &'static str,
    other: &'a u64,
) -> [Piece<'a>; 7]
    ensures { flat_map piece_text result ≡ word.now ++ decimal one.now ++ between.now ++ decimal other.now ++ codes "\n" }
{
    [
        Text(word),
        Number(*one),
        Text(between),
        Number(*other),
        Text("\n"),
        NONE,
        NONE,
    ]
}

// A line of a word and a server.
fn of_server<'a>(word: &'static str, server: &'a ServerName) -> [Piece<'a>; 7]
    ensures { flat_map piece_text result ≡ word.now ++ server_text server.now ++ codes "\n" }
{
    [
        Text(word),
        Server(server),
        Text("\n"),
        NONE,
        NONE,
        NONE,
        NONE,
    ]
}

// A line of a refusal.
fn refused(why: &Refusal) -> [Piece<'_>; 7]
    ensures { flat_map piece_text result ≡ codes "refused " ++ refusal_text why.now ++ codes "\n" }
{
    let number = match why.number() {
        Some(number) => Number(number),
        None => NONE,
    };
    [
        Text("refused "),
        Text(why.word()),
        Text(why.detail()),
        number,
        Text("\n"),
        NONE,
        NONE,
    ]
}

// A line of a crash that is recorded.
fn expired(server: &ServerName, pid: u64) -> [Piece<'_>; 7]
    ensures { flat_map piece_text result ≡ expired_text server.now pid }
{
    [
        Text("expired "),
        Server(server),
        Text(" pid "),
        Number(pid),
        Text("\n"),
        NONE,
        NONE,
    ]
}

// The lines of a server that comes up in place of an older one.
fn in_place_of<'a>(older: &'a ServerName, pid: u64, server: &'a ServerName) -> [Piece<'a>; 7]
    ensures { flat_map piece_text result ≡ expired_text older.now pid ++ up_text server.now }
{
    [
        Text("expired "),
        Server(older),
        Text(" pid "),
        Number(pid),
        Text("\nup "),
        Server(server),
        Text("\n"),
    ]
}

// A line of what halted the run.
fn halted(why: &Halt) -> [Piece<'_>; 7]
    ensures { flat_map piece_text result ≡ codes "halted " ++ halt_text why.now ++ codes "\n" }
{
    match why {
        Halt::LogFault => [
            Text("halted LogFault\n"),
            NONE,
            NONE,
            NONE,
            NONE,
            NONE,
            NONE,
        ],
        Halt::JournalFull(bytes) => numbered("halted JournalFull ", bytes, "\n"),
    }
}

// A line of a group and how many servers it has.
fn of_group(name: &Ns, servers: u64) -> [Piece<'_>; 7]
    ensures { flat_map piece_text result ≡ codes "group " ++ name.now ++ codes " " ++ decimal servers ++ codes "\n" }
{
    [
        Text("group "),
        Bytes(name.as_bytes()),
        Text(" "),
        Number(servers),
        Text("\n"),
        NONE,
        NONE,
    ]
}
