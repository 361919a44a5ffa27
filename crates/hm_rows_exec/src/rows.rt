//! Lists of events, and what each says. What is expected was asked of an independent implementation.
use crate::events::{Event, Row};
use hm_data::Told;

/// Two tables of a namespace share it, and its drop waits: behind the one with the lower number, and then behind the other.
pub(crate) const SHARED: &[Row] = &[
    (Event::Line("namespace 1:1 n"), "pid 1; submit 1:1"),
    (Event::Step, "claimed 1: 1 row 0, kept 2; step 1 More(1)"),
    (
        Event::Step,
        "claimed 1: 1 row 1, kept 3; step 1 Done(Nothing)",
    ),
    (Event::Line("create 1:2 n:a"), "pid 2; submit 1:2"),
    (Event::Line("create 1:3 n:b"), "pid 3; submit 1:3"),
    (Event::Line("drop-namespace 1:4 n"), "pid 4; submit 1:4"),
    (Event::Claim, "claimed 2: 2 row 0"),
    (Event::Claim, "claimed 3: 3 row 0"),
    (Event::Claim, "none"),
    (Event::Commit(3), "kept 7; step 3 More(1)"),
    (Event::Commit(2), "kept 8; step 2 More(1)"),
    (Event::Claim, "claimed 3: 3 row 1"),
    (Event::Claim, "claimed 2: 2 row 1"),
    (Event::Claim, "none"),
    (Event::Line("abort 2"), "aborting; abort 2"),
    (Event::Commit(2), "stale: 2 row 1, now 2 row 1 aborted"),
    (Event::Commit(3), "kept 10; step 3 More(2)"),
    (
        Event::Step,
        "claimed 2: 2 row 1 aborted, kept 11; step 2 Fail(Aborted)",
    ),
    (Event::Claim, "claimed 3: 3 row 2"),
    (Event::Claim, "none"),
    (Event::Line("abort 3"), "aborting; abort 3"),
    (Event::PutBack(3), "back"),
    (
        Event::Step,
        "claimed 3: 3 row 2 aborted, kept 13; step 3 Fail(Aborted)",
    ),
    (
        Event::Step,
        "claimed 3: undo 3 row 1 aborted, kept 14; undo 3 row 1 Undone",
    ),
    (Event::Claim, "claimed 4: 4 row 0"),
    (Event::Claim, "none"),
    (Event::Commit(4), "kept 15; step 4 More(1)"),
    (
        Event::Step,
        "claimed 4: 4 row 1, kept 16; step 4 Done(Nothing)",
    ),
    (Event::Claim, "none"),
];

/// The drop holds the namespace alone, and both tables wait. It comes first, though its number is the greatest, and they go on together.
pub(crate) const ALONE: &[Row] = &[
    (Event::Line("namespace 1:1 n"), "pid 1; submit 1:1"),
    (Event::Step, "claimed 1: 1 row 0, kept 2; step 1 More(1)"),
    (
        Event::Step,
        "claimed 1: 1 row 1, kept 3; step 1 Done(Nothing)",
    ),
    (Event::Line("drop-namespace 1:2 n"), "pid 2; submit 1:2"),
    (Event::Line("create 1:3 n:a"), "pid 3; submit 1:3"),
    (Event::Line("create 1:4 n:b"), "pid 4; submit 1:4"),
    (Event::Claim, "claimed 2: 2 row 0"),
    (Event::Claim, "none"),
    (Event::Commit(2), "kept 7; step 2 More(1)"),
    (Event::Claim, "claimed 2: 2 row 1"),
    (Event::Claim, "none"),
    (Event::Commit(2), "kept 8; step 2 Done(Nothing)"),
    (Event::Claim, "claimed 3: 3 row 0"),
    (Event::Claim, "claimed 4: 4 row 0"),
    (Event::Claim, "none"),
    (Event::Commit(4), "kept 9; step 4 Fail(NsMissing)"),
    (Event::Commit(3), "kept 10; step 3 Fail(NsMissing)"),
    (Event::Claim, "none"),
];

/// A procedure waits for one whose layout is refused, while that is undone, and goes on then.
pub(crate) const BEHIND_A_FAILURE: &[Row] = &[
    (Event::Line("create 1:1 t"), "pid 1; submit 1:1"),
    (Event::Line("create 1:2 t"), "pid 2; submit 1:2"),
    (Event::Claim, "claimed 1: 1 row 0"),
    (Event::Claim, "none"),
    (Event::Commit(1), "kept 3; step 1 More(1)"),
    (Event::Step, "claimed 1: 1 row 1, kept 4; step 1 More(2)"),
    (Event::Step, "claimed 1: 1 row 2, kept 5; step 1 Wait(3)"),
    (Event::Step, "claimed 3: 3 row 0, kept 6; step 3 Await(1)"),
    (Event::Claim, "none"),
    (
        Event::Report(3, "storage", Told::Refused),
        "Accepted(7); report 3 Refused",
    ),
    (Event::Claim, "claimed 3: 3 row 1 report Refused"),
    (Event::Commit(3), "kept 8; step 3 Fail(LayoutRefused)"),
    (Event::Claim, "claimed 1: undo 1 row 2"),
    (Event::Commit(1), "kept 9; undo 1 row 2 Undone"),
    (Event::Claim, "claimed 4: 4 row 0"),
    (Event::Claim, "claimed 1: undo 1 row 1"),
    (Event::Claim, "none"),
    (Event::Commit(4), "kept 10; step 4 Await(1)"),
    (Event::Commit(1), "kept 11; undo 1 row 1 Undone"),
    (
        Event::Report(4, "storage", Told::Swept),
        "Accepted(12); report 4 Swept",
    ),
    (Event::Claim, "claimed 2: 2 row 0"),
    (Event::Claim, "claimed 4: 4 row 1 report Swept"),
    (Event::Commit(2), "kept 13; step 2 More(1)"),
    (Event::Commit(4), "kept 14; step 4 Done(Swept)"),
    (Event::Claim, "claimed 2: 2 row 1"),
];

/// An abort while a child is claimed: the child goes on, and its root fails at its next step. An abort while the root itself is claimed: its answer is stale.
pub(crate) const ABORTED: &[Row] = &[
    (Event::Line("create 1:1 t"), "pid 1; submit 1:1"),
    (Event::Step, "claimed 1: 1 row 0, kept 2; step 1 More(1)"),
    (Event::Step, "claimed 1: 1 row 1, kept 3; step 1 More(2)"),
    (Event::Step, "claimed 1: 1 row 2, kept 4; step 1 Wait(3)"),
    (Event::Claim, "claimed 2: 2 row 0"),
    (Event::Line("abort 1"), "aborting; abort 1"),
    (Event::Commit(2), "kept 6; step 2 Await(1)"),
    (Event::Line("abort 1"), "aborting already"),
    (
        Event::Report(2, "storage", Told::LaidOut),
        "Accepted(7); report 2 LaidOut",
    ),
    (Event::Claim, "claimed 2: 2 row 1 report LaidOut"),
    (Event::Line("abort 2"), "Child(Pid(1))"),
    (Event::Commit(2), "kept 8; step 2 Done(LaidOut)"),
    (Event::Claim, "claimed 1: 1 row 3 aborted"),
    (Event::Commit(1), "kept 9; step 1 Fail(Aborted)"),
    (
        Event::Step,
        "claimed 1: undo 1 row 2 aborted, kept 10; undo 1 row 2 Undone",
    ),
    (Event::Step, "claimed 3: 3 row 0, kept 11; step 3 Await(1)"),
    (
        Event::Step,
        "claimed 1: undo 1 row 1 aborted, kept 12; undo 1 row 1 Undone",
    ),
    (
        Event::Report(3, "storage", Told::Swept),
        "Accepted(13); report 3 Swept",
    ),
    (
        Event::Step,
        "claimed 3: 3 row 1 report Swept, kept 14; step 3 Done(Swept)",
    ),
    (Event::Line("create 1:2 u"), "pid 4; submit 1:2"),
    (Event::Claim, "claimed 4: 4 row 0"),
    (Event::Line("abort 4"), "aborting; abort 4"),
    (Event::Commit(4), "stale: 4 row 0, now 4 row 0 aborted"),
    (Event::Claim, "claimed 4: 4 row 0 aborted"),
    (Event::Commit(4), "kept 17; step 4 Fail(Aborted)"),
    (Event::Claim, "none"),
];

/// A report between claim and commit: the call goes on after its server's fence, and is answered while it is claimed.
pub(crate) const REPORTED: &[Row] = &[
    (Event::Line("server h1,1,1"), "up; up h1,1,1"),
    (Event::Line("create 1:1 t"), "pid 1; submit 1:1"),
    (Event::Step, "claimed 1: 1 row 0, kept 3; step 1 More(1)"),
    (Event::Step, "claimed 1: 1 row 1, kept 4; step 1 More(2)"),
    (Event::Step, "claimed 1: 1 row 2, kept 5; step 1 Wait(3)"),
    (Event::Step, "claimed 2: 2 row 0, kept 6; step 2 Await(1)"),
    (
        Event::Report(2, "storage", Told::LaidOut),
        "Accepted(7); report 2 LaidOut",
    ),
    (
        Event::Step,
        "claimed 2: 2 row 1 report LaidOut, kept 8; step 2 Done(LaidOut)",
    ),
    (Event::Step, "claimed 1: 1 row 3, kept 9; step 1 Wait(4)"),
    (
        Event::Step,
        "claimed 3: 3 row 0, kept 10; step 3 Done(Nothing)",
    ),
    (Event::Step, "claimed 1: 1 row 4, kept 11; step 1 More(5)"),
    (Event::Step, "claimed 1: 1 row 5, kept 12; step 1 Wait(6)"),
    (
        Event::Step,
        "claimed 4: 4 row 0 pick h1,1,1, kept 13; step 4 at h1,1,1 More(1)",
    ),
    (Event::Step, "claimed 4: 4 row 1, kept 14; step 4 Wait(2)"),
    (Event::Step, "claimed 5: 5 row 0, kept 15; step 5 Await(1)"),
    (Event::Line("abort 1"), "TooLate(6)"),
    (Event::Line("expire h1,1,1"), "down by 6; down h1,1,1"),
    (Event::Step, "claimed 6: 6 row 0, kept 17; step 6 Wait(1)"),
    (Event::Step, "claimed 7: 7 row 0, kept 18; step 7 Await(1)"),
    (
        Event::Report(7, "storage", Told::Fenced),
        "Accepted(19); report 7 Fenced",
    ),
    (Event::Claim, "claimed 7: 7 row 1 report Fenced"),
    (Event::Claim, "claimed 5: 5 row 1 fenced"),
    (
        Event::Report(5, "h1,1,1", Told::Opened),
        "Accepted(20); report 5 Opened",
    ),
    (
        Event::Commit(5),
        "stale: 5 row 1 fenced, now 5 row 1 report Opened fenced",
    ),
    (Event::Commit(7), "kept 21; step 7 Done(Fenced)"),
    (Event::Claim, "claimed 6: 6 row 1"),
    (Event::Claim, "claimed 5: 5 row 1 report Opened fenced"),
    (Event::Commit(5), "kept 22; step 5 Done(Gone)"),
    (Event::Commit(6), "kept 23; step 6 Wait(1)"),
    (Event::Claim, "claimed 4: 4 row 2 fenced"),
];

/// The server that was picked goes down between claim and commit. Without a live server nobody can be picked; then another is.
pub(crate) const UNPICKED: &[Row] = &[
    (Event::Line("server h1,1,1"), "up; up h1,1,1"),
    (Event::Line("create 1:1 t"), "pid 1; submit 1:1"),
    (Event::Step, "claimed 1: 1 row 0, kept 3; step 1 More(1)"),
    (Event::Step, "claimed 1: 1 row 1, kept 4; step 1 More(2)"),
    (Event::Step, "claimed 1: 1 row 2, kept 5; step 1 Wait(3)"),
    (Event::Step, "claimed 2: 2 row 0, kept 6; step 2 Await(1)"),
    (
        Event::Report(2, "storage", Told::LaidOut),
        "Accepted(7); report 2 LaidOut",
    ),
    (
        Event::Step,
        "claimed 2: 2 row 1 report LaidOut, kept 8; step 2 Done(LaidOut)",
    ),
    (Event::Step, "claimed 1: 1 row 3, kept 9; step 1 Wait(4)"),
    (
        Event::Step,
        "claimed 3: 3 row 0, kept 10; step 3 Done(Nothing)",
    ),
    (Event::Step, "claimed 1: 1 row 4, kept 11; step 1 More(5)"),
    (Event::Step, "claimed 1: 1 row 5, kept 12; step 1 Wait(6)"),
    (Event::Claim, "claimed 4: 4 row 0 pick h1,1,1"),
    (Event::Line("expire h1,1,1"), "down by 5; down h1,1,1"),
    (Event::Commit(4), "stale: 4 row 0 pick h1,1,1, now 4 row 0"),
    (Event::Claim, "claimed 5: 5 row 0"),
    (Event::Claim, "none"),
    (Event::Line("server h2,1,1"), "up; up h2,1,1"),
    (Event::Claim, "claimed 4: 4 row 0 pick h2,1,1"),
    (Event::Commit(4), "kept 15; step 4 at h2,1,1 More(1)"),
    (Event::Commit(5), "kept 16; step 5 Wait(1)"),
];

/// The same where another server is live.
pub(crate) const REPICKED: &[Row] = &[
    (Event::Line("server h1,1,1"), "up; up h1,1,1"),
    (Event::Line("create 1:1 t"), "pid 1; submit 1:1"),
    (Event::Step, "claimed 1: 1 row 0, kept 3; step 1 More(1)"),
    (Event::Step, "claimed 1: 1 row 1, kept 4; step 1 More(2)"),
    (Event::Step, "claimed 1: 1 row 2, kept 5; step 1 Wait(3)"),
    (Event::Step, "claimed 2: 2 row 0, kept 6; step 2 Await(1)"),
    (
        Event::Report(2, "storage", Told::LaidOut),
        "Accepted(7); report 2 LaidOut",
    ),
    (
        Event::Step,
        "claimed 2: 2 row 1 report LaidOut, kept 8; step 2 Done(LaidOut)",
    ),
    (Event::Step, "claimed 1: 1 row 3, kept 9; step 1 Wait(4)"),
    (
        Event::Step,
        "claimed 3: 3 row 0, kept 10; step 3 Done(Nothing)",
    ),
    (Event::Step, "claimed 1: 1 row 4, kept 11; step 1 More(5)"),
    (Event::Step, "claimed 1: 1 row 5, kept 12; step 1 Wait(6)"),
    (Event::Claim, "claimed 4: 4 row 0 pick h1,1,1"),
    (Event::Line("server h2,1,1"), "up; up h2,1,1"),
    (
        Event::Line("server h1,1,2"),
        "up, down h1,1,1 by 5; down h1,1,1; up h1,1,2",
    ),
    (Event::Commit(4), "stale: 4 row 0 pick h1,1,1, now 4 row 0"),
    (Event::Claim, "claimed 5: 5 row 0"),
    (Event::Claim, "claimed 4: 4 row 0 pick h1,1,2"),
    (Event::Commit(4), "kept 16; step 4 at h1,1,2 More(1)"),
    (Event::Commit(5), "kept 17; step 5 Wait(1)"),
    (Event::Claim, "claimed 6: 6 row 0"),
];

/// A claim that is put back before a first step gives back what it took, and the one who waited comes first. After a first step it keeps it.
pub(crate) const PUT_BACK: &[Row] = &[
    (Event::Line("create 1:1 t"), "pid 1; submit 1:1"),
    (Event::Line("create 1:2 t"), "pid 2; submit 1:2"),
    (Event::Claim, "claimed 1: 1 row 0"),
    (Event::Claim, "none"),
    (Event::PutBack(1), "back"),
    (Event::Claim, "claimed 2: 2 row 0"),
    (Event::Claim, "none"),
    (Event::PutBack(2), "back"),
    (Event::Claim, "claimed 1: 1 row 0"),
    (Event::Commit(1), "kept 3; step 1 More(1)"),
    (Event::Claim, "claimed 1: 1 row 1"),
    (Event::Claim, "none"),
    (Event::PutBack(1), "back"),
    (Event::Claim, "claimed 1: 1 row 1"),
    (Event::Claim, "none"),
    (Event::Commit(1), "kept 4; step 1 More(2)"),
    (Event::Commit(2), "nothing"),
];

/// Why a report is ignored, in order.
pub(crate) const REPORTS: &[Row] = &[
    (
        Event::Report(1, "storage", Told::LaidOut),
        "Ignored(Unknown)",
    ),
    (Event::Line("create 1:1 t"), "pid 1; submit 1:1"),
    (Event::Step, "claimed 1: 1 row 0, kept 2; step 1 More(1)"),
    (Event::Step, "claimed 1: 1 row 1, kept 3; step 1 More(2)"),
    (Event::Step, "claimed 1: 1 row 2, kept 4; step 1 Wait(3)"),
    (
        Event::Report(2, "storage", Told::LaidOut),
        "Ignored(Unknown)",
    ),
    (Event::Step, "claimed 2: 2 row 0, kept 5; step 2 Await(1)"),
    (Event::Report(3, "h1,1,1", Told::Opened), "Ignored(Unknown)"),
    (
        Event::Report(1, "storage", Told::LaidOut),
        "Ignored(Unknown)",
    ),
    (
        Event::Report(2, "h1,1,1", Told::Opened),
        "Ignored(WrongPeer)",
    ),
    (
        Event::Report(2, "storage", Told::Opened),
        "Ignored(WrongTold)",
    ),
    (
        Event::Report(2, "storage", Told::LaidOut),
        "Accepted(6); report 2 LaidOut",
    ),
    (
        Event::Report(2, "h1,1,1", Told::Opened),
        "Ignored(WrongPeer)",
    ),
    (
        Event::Report(2, "storage", Told::Opened),
        "Ignored(WrongTold)",
    ),
    (
        Event::Report(2, "storage", Told::Refused),
        "Ignored(Settled)",
    ),
    (
        Event::Step,
        "claimed 2: 2 row 1 report LaidOut, kept 7; step 2 Done(LaidOut)",
    ),
    (
        Event::Report(2, "storage", Told::LaidOut),
        "Ignored(Settled)",
    ),
];

/// Why a submission is refused, in order.
pub(crate) const SUBMISSIONS: &[Row] = &[
    (Event::Line("namespace 1:1 n"), "pid 1; submit 1:1"),
    (Event::Line("namespace 1:1 n"), "pid 1 repeated"),
    (Event::Line("namespace 1:1 m"), "NonceClash(Pid(1))"),
    (Event::Line("create 1:1 n:t"), "NonceClash(Pid(1))"),
    (Event::Line("drop-namespace 1:1 default"), "BadArgs(1)"),
    (Event::Line("drop-namespace 1:2 hbase"), "BadArgs(1)"),
    (Event::Line("create 1:2 t b a"), "BadArgs(2)"),
    (Event::Wide(256), "BadArgs(3)"),
    (Event::Line("merge 1:2 t,1 t,1"), "BadArgs(4)"),
    (Event::Line("merge 1:2 t,1 u,2"), "BadArgs(4)"),
    (Event::Line("split 1:2 t,1 \\-"), "BadArgs(5)"),
    (Event::Line("namespace 0:0 n"), "pid 2; submit 0:0"),
    (Event::Line("namespace 0:0 n"), "pid 3; submit 0:0"),
    (Event::Line("namespace 2:1 n"), "pid 4; submit 2:1"),
    (Event::Wide(255), "pid 5; submit 0:0"),
    (Event::Wide(255), "pid 6; submit 0:0"),
    (Event::Wide(255), "pid 7; submit 0:0"),
    (Event::Wide(255), "pid 8; submit 0:0"),
    (Event::Wide(255), "pid 9; submit 0:0"),
    (Event::Wide(255), "pid 10; submit 0:0"),
    (Event::Wide(255), "pid 11; submit 0:0"),
    (Event::Wide(255), "pid 12; submit 0:0"),
    (Event::Wide(255), "pid 13; submit 0:0"),
    (Event::Wide(255), "pid 14; submit 0:0"),
    (Event::Wide(255), "pid 15; submit 0:0"),
    (Event::Wide(255), "pid 16; submit 0:0"),
    (Event::Wide(255), "pid 17; submit 0:0"),
    (Event::Wide(255), "pid 18; submit 0:0"),
    (Event::Wide(255), "pid 19; submit 0:0"),
    (Event::Wide(255), "pid 20; submit 0:0"),
    (Event::Wide(255), "TooManyRegions(4096)"),
    (Event::Wide(0), "TooManyRegions(4096)"),
    (Event::Line("create 1:1 u"), "NonceClash(Pid(1))"),
    (Event::Line("create 1:2 t"), "pid 21; submit 1:2"),
];

/// Why an abort is refused, and servers.
pub(crate) const ABORTS: &[Row] = &[
    (Event::Line("abort 1"), "Unknown"),
    (Event::Line("namespace 1:1 n"), "pid 1; submit 1:1"),
    (Event::Step, "claimed 1: 1 row 0, kept 2; step 1 More(1)"),
    (
        Event::Step,
        "claimed 1: 1 row 1, kept 3; step 1 Done(Nothing)",
    ),
    (Event::Line("abort 1"), "Finished(Success)"),
    (Event::Line("namespace 1:2 n"), "pid 2; submit 1:2"),
    (
        Event::Step,
        "claimed 2: 2 row 0, kept 5; step 2 Fail(NsExists)",
    ),
    (Event::Line("abort 2"), "Finished(RolledBack(NsExists))"),
    (Event::Line("create 1:3 t"), "pid 3; submit 1:3"),
    (Event::Step, "claimed 3: 3 row 0, kept 7; step 3 More(1)"),
    (Event::Step, "claimed 3: 3 row 1, kept 8; step 3 More(2)"),
    (Event::Step, "claimed 3: 3 row 2, kept 9; step 3 Wait(3)"),
    (Event::Line("abort 4"), "Child(Pid(3))"),
    (Event::Step, "claimed 4: 4 row 0, kept 10; step 4 Await(1)"),
    (
        Event::Report(4, "storage", Told::Refused),
        "Accepted(11); report 4 Refused",
    ),
    (
        Event::Step,
        "claimed 4: 4 row 1 report Refused, kept 12; step 4 Fail(LayoutRefused)",
    ),
    (Event::Line("abort 4"), "Child(Pid(3))"),
    (Event::Line("abort 3"), "Finished(Failed(LayoutRefused))"),
    (Event::Line("server h1,1,2"), "up; up h1,1,2"),
    (Event::Line("server h1,1,2"), "Up(Known)"),
    (Event::Line("server h1,1,1"), "Up(OldStart(2))"),
    (Event::Line("expire h2,1,1"), "Down(Unknown)"),
    (
        Event::Line("server h1,1,3"),
        "up, down h1,1,2 by 5; down h1,1,2; up h1,1,3",
    ),
    (Event::Line("expire h1,1,2"), "Down(AlreadyDown)"),
    (Event::Line("server h1,1,2"), "Up(OldStart(3))"),
    (Event::Line("expire h1,1,3"), "down by 6; down h1,1,3"),
    (Event::Line("expire h1,1,3"), "Down(AlreadyDown)"),
    (Event::Line("server h1,1,3"), "Up(OldStart(3))"),
];

/// How many bytes a log of the first submission has.
pub(crate) const SOFT: u64 = 323;

/// At the soft mark no new submission is recorded, and all else goes on.
pub(crate) const FULL: &[Row] = &[
    (Event::Line("namespace 1:1 n"), "pid 1; submit 1:1"),
    (Event::Line("namespace 1:2 m"), "JournalFull(323)"),
    (Event::Line("namespace 1:1 n"), "pid 1 repeated"),
    (Event::Line("namespace 1:1 m"), "NonceClash(Pid(1))"),
    (Event::Line("drop-namespace 1:2 default"), "BadArgs(1)"),
    (Event::Step, "claimed 1: 1 row 0, kept 2; step 1 More(1)"),
    (Event::Line("server h1,1,1"), "up; up h1,1,1"),
    (Event::Line("abort 1"), "aborting; abort 1"),
    (
        Event::Step,
        "claimed 1: 1 row 1 aborted, kept 5; step 1 Fail(Aborted)",
    ),
    (Event::Line("namespace 1:2 m"), "JournalFull(407)"),
    (Event::Line("expire h1,1,1"), "down by 2; down h1,1,1"),
    (Event::Step, "claimed 2: 2 row 0, kept 7; step 2 Wait(1)"),
];

/// A run with each kind of entry.
pub(crate) const WHOLE: &[Row] = &[
    (Event::Line("namespace 1:1 n"), "pid 1; submit 1:1"),
    (Event::Line("create 1:2 t"), "pid 2; submit 1:2"),
    (Event::Claim, "claimed 1: 1 row 0"),
    (Event::Claim, "claimed 2: 2 row 0"),
    (Event::Commit(1), "kept 3; step 1 More(1)"),
    (Event::Commit(2), "kept 4; step 2 More(1)"),
    (Event::Claim, "claimed 1: 1 row 1"),
    (Event::Claim, "claimed 2: 2 row 1"),
    (Event::Commit(2), "kept 5; step 2 More(2)"),
    (Event::Line("abort 2"), "aborting; abort 2"),
    (Event::Line("server h1,1,1"), "up; up h1,1,1"),
    (Event::Commit(1), "kept 8; step 1 Done(Nothing)"),
    (Event::Claim, "claimed 2: 2 row 2 aborted"),
    (Event::Commit(2), "kept 9; step 2 Fail(Aborted)"),
    (Event::Claim, "claimed 2: undo 2 row 1 aborted"),
    (
        Event::Line("server h1,1,2"),
        "up, down h1,1,1 by 3; down h1,1,1; up h1,1,2",
    ),
    (Event::Commit(2), "kept 12; undo 2 row 1 Undone"),
    (Event::Claim, "claimed 3: 3 row 0"),
    (Event::Commit(3), "kept 13; step 3 Wait(1)"),
    (Event::Claim, "claimed 4: 4 row 0"),
    (Event::Commit(4), "kept 14; step 4 Await(1)"),
    (
        Event::Report(4, "storage", Told::Fenced),
        "Accepted(15); report 4 Fenced",
    ),
    (Event::Claim, "claimed 4: 4 row 1 report Fenced"),
    (Event::Line("expire h1,1,2"), "down by 5; down h1,1,2"),
    (Event::Commit(4), "kept 17; step 4 Done(Fenced)"),
];

/// Of each entry after the start its number among these, the event that records it, the bytes of a log of those before it, the
/// greatest hard mark that it passes, and what the event has recorded before.
pub(crate) const HALTS: [(u64, usize, u64, u64, &str); 17] = [
    (0, 0, 297, 322, ""),
    (1, 1, 323, 359, ""),
    (2, 4, 360, 384, ""),
    (3, 5, 385, 409, ""),
    (4, 8, 410, 459, ""),
    (5, 9, 460, 473, ""),
    (6, 10, 474, 493, ""),
    (7, 11, 494, 525, ""),
    (8, 13, 526, 550, ""),
    (9, 15, 551, 570, ""),
    (10, 15, 571, 590, "; down h1,1,1"),
    (11, 16, 591, 640, ""),
    (12, 18, 641, 680, ""),
    (13, 20, 681, 720, ""),
    (14, 21, 721, 735, ""),
    (15, 23, 736, 755, ""),
    (16, 24, 756, 780, ""),
];

/// Events after a fault, which are judged by nothing else.
pub(crate) const AFTER: [Event; 12] = [
    Event::Line("namespace 9:1 z"),
    Event::Line("namespace 1:1 n"),
    Event::Line("drop-namespace 9:1 default"),
    Event::Line("abort 1"),
    Event::Line("abort 99"),
    Event::Line("server h9,1,1"),
    Event::Line("server h1,1,1"),
    Event::Line("expire h1,1,2"),
    Event::Line("expire h9,1,1"),
    Event::Report(4, "storage", Told::Fenced),
    Event::Report(99, "storage", Told::Fenced),
    Event::Claim,
];
