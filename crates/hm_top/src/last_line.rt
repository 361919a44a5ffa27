//! The last line of a run, which takes no memory.
ghost use Rattle.std.specs.Prelude.{◌≡◌, ◌≤◌};
ghost use Rattle.std.specs.List.{flat_map};
ghost use Rattle.hm_ports.specs.Faults.{Rose};
ghost use Rattle.hm_top.specs.Got.{IsLast};
ghost use Rattle.hm_script.specs.Faults.{why_text};
ghost use Rattle.hm_top.specs.Status.{last_line, log_text};
ghost use Rattle.hm_commands.specs.Pieces.{piece_text};

use crate::piece::{NONE, put_all};
use crate::status::{LogWhy, RunStatus};
use Piece::{Number, Text};
use hm_commands::Piece;
use hm_names::NameFault;
use hm_ports::Sink;
use hm_script::Why;

// What is wrong with a line of a script, in pieces.
fn why_pieces(why: Why) -> [Piece<'static>; 2]
    ensures { flat_map piece_text result ≡ why_text why }
{
    match why {
        Why::Word(at) => [Text("Word "), Number(at)],
        Why::Missing => [Text("Missing"), NONE],
        Why::Extra => [Text("Extra"), NONE],
        Why::Name(NameFault::Empty) => [Text("Name Empty"), NONE],
        Why::Name(NameFault::TooLong(length)) => [Text("Name TooLong "), Number(length)],
        Why::Name(NameFault::BadByte(at)) => [Text("Name BadByte "), Number(at)],
        Why::Name(NameFault::BadNumber(at)) => [Text("Name BadNumber "), Number(at)],
        Why::Name(NameFault::Memory) => [Text("Name Memory"), NONE],
        Why::Number => [Text("Number"), NONE],
        Why::Order => [Text("Order"), NONE],
        Why::TooLong => [Text("TooLong"), NONE],
        Why::Memory => [Text("Memory"), NONE],
    }
}

// Why a log is refused, in pieces.
fn log_pieces(why: LogWhy) -> [Piece<'static>; 4]
    ensures { flat_map piece_text result ≡ log_text why }
{
    match why {
        LogWhy::NotALog(at) => [Text("NotALog "), Number(at), NONE, NONE],
        LogWhy::BadFrame(at) => [Text("BadFrame "), Number(at), NONE, NONE],
        LogWhy::BadEntry { number, at } => [
            Text("BadEntry "),
            Number(number),
            Text(" "),
            Number(at),
        ],
        LogWhy::Illegal { number, rule } => {
            [
                Text("Illegal "),
                Number(number),
                Text(" "),
                Number(u64::from(rule)),
            ]
        }
        LogWhy::SheetsDiffer(kind) => [Text("SheetsDiffer "), Number(u64::from(kind)), NONE, NONE],
        LogWhy::NotEmpty(entries) => [Text("NotEmpty "), Number(entries), NONE, NONE],
    }
}

// The last line, in pieces.
fn pieces(status: RunStatus) -> [Piece<'static>; 6]
    ensures { flat_map piece_text result ≡ last_line status }
{
    let end = Text("\n");
    match status {
        RunStatus::Done | RunStatus::WriteFault | RunStatus::Memory => [NONE; 6],
        RunStatus::Usage(word) => {
            [
                Text("hmaster: usage: word "),
                Number(word),
                end,
                NONE,
                NONE,
                NONE,
            ]
        }
        RunStatus::BadScript(bad) => {
            let [word, number] = why_pieces(bad.why);
            [
                Text("hmaster: script: line "),
                Number(bad.line),
                Text(": "),
                word,
                number,
                end,
            ]
        }
        RunStatus::LogFault => [Text("hmaster: log fault\n"), NONE, NONE, NONE, NONE, NONE],
        RunStatus::LogRefused(why) => {
            let [word, first, space, second] = log_pieces(why);
            [
                Text("hmaster: log refused: "),
                word,
                first,
                space,
                second,
                end,
            ]
        }
        RunStatus::ReadFault => [Text("hmaster: read fault\n"), NONE, NONE, NONE, NONE, NONE],
        RunStatus::JournalFull(bytes) => {
            [
                Text("hmaster: journal full: "),
                Number(bytes),
                end,
                NONE,
                NONE,
                NONE,
            ]
        }
    }
}

/// Tries the last line once. Its failure changes nothing.
pub(crate) fn finish<K: Sink>(out: &mut K, status: RunStatus)
    ensures line { K.tells → IsLast (Rose (K.faults out.old) (K.faults out.new)) (K.got out.old) (K.got out.new) (last_line status) }
    ensures later { K.faults out.old ≤ K.faults out.new }
{
    let _ = put_all(out, &pieces(status));
}
