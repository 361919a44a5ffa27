//! A script read as commands.
ghost use Rattle.std.specs.Prelude.{◌≡◌, ◌<◌, ◌≤◌, ◌+◌, ◌⊎◌, ◌++◌, ◌∷◌, [], None, Some, true, false, IfSome, IfOk, IfErr, OnOk, OnErr, All, length, vec_capacity, vec_len};
ghost use Rattle.hm_script.specs.Lines.{indent_of};
ghost use Rattle.hm_script.specs.Script.{IsFaultTo, IsFull, IsScriptTo, RanOut, Reader, more_room as more_room_of, run_reader};
ghost use Rattle.hm_script.specs.Spellings.{spelling};

use crate::bad::{Bad, Why};
use crate::command::Command;
use crate::line::{first_line, indent, skips};
use crate::program::Program;
use crate::reading::read_line;
use std::alloc::{AllocError, Global};

// A script has at most so many bytes.
const LONGEST: usize = 1_048_576;

/// Which commands a program has.
pub trait Commands {
    ghost reader: { Reader };

    /// The program, whose words alone are commands.
    fn program() -> Program
        ensures { result ≡ reader.program };

    /// How many regions a merge may have. Two it may have in any case.
    fn most_regions() -> u64
        ensures { result ≡ reader.most_regions };

    /// Whether the program has this one of its commands already.
    fn has(command: &Command) -> bool
        ensures { result ≡ reader.has (spelling command.now) };
}

/// All commands of the program `run`.
#[derive(Clone, Copy, Debug, PartialEq, Eq)]
pub struct Run;

impl Commands for Run {
    ghost reader = { run_reader };

    fn program() -> Program {
        Program::Run
    }

    fn most_regions() -> u64 {
        10
    }

    fn has(_command: &Command) -> bool {
        true
    }
}

/// All commands of the program `pair`.
#[derive(Clone, Copy, Debug, PartialEq, Eq)]
pub struct Pair;

impl Commands for Pair {
    ghost use Rattle.hm_script.specs.Script.{pair_reader};

    ghost reader = { pair_reader };

    fn program() -> Program {
        Program::Pair
    }

    fn most_regions() -> u64 {
        10
    }

    fn has(_command: &Command) -> bool {
        true
    }
}

// The first line whose command a program doesn't have: one before, or this line.
fn first_lacked<C: Commands>(
    before: Option<Bad>,
    command: &Command,
    text: &[u8],
    line: u64,
) -> Option<Bad>
    ensures kept { IfSome before (λ bad. result ≡ Some bad) }
    ensures had { before ≡ None → C.reader.has (spelling command.now) ≡ true → result ≡ None }
    ensures lacked { before ≡ None → C.reader.has (spelling command.now) ≡ false → result ≡ Some (record { line = line; why = Why.Word (indent_of text.now) }) }
{
    if before.is_some() || C::has(command) {
        return before;
    }
    Some(Bad {
        line,
        why: Why::Word(indent(text) as u64),
    })
}

// How much more room is made where there is so much.
fn more_room(room: usize) -> usize
    ensures { result ≡ more_room_of room }
{
    if room == 0 { 16 } else { room }
}

// Makes more room for commands, and tells how much there is then.
fn make_room(commands: &mut Vec<Command>, room: usize) -> Result<usize, AllocError>
    requires full { vec_len commands.old ≡ room }
    requires made { IsFull room }
    ensures items { commands.new.items ≡ commands.old.items }
    ensures len { vec_len commands.new ≡ vec_len commands.old }
    ensures there { IfOk result (λ all. all ≤ vec_capacity commands.new) }
    ensures grown { IfOk result (λ all. room < all) }
    ensures made { IfOk result IsFull }
{
    let more = more_room(room);
    commands.reserve(more)?;
    Ok(room + more)
}

// Adds a command to those for which there is room; where they use it up, more is made first.
fn add(commands: &mut Vec<Command>, room: &mut usize, command: Command) -> Result<(), AllocError>
    requires fits { vec_len commands.old ≤ room.old }
    requires there { room.old ≤ vec_capacity commands.old }
    requires made { IsFull room.old }
    ensures items { OnOk result (commands.new.items ≡ commands.old.items ++ command ∷ []) }
    ensures count { OnOk result (vec_len commands.new ≡ vec_len commands.old + 1) }
    ensures fits { OnOk result (vec_len commands.new ≤ room.new) }
    ensures there { OnOk result (room.new ≤ vec_capacity commands.new) }
    ensures made { OnOk result (IsFull room.new) }
    ensures full { OnErr result (IsFull (vec_len commands.old)) }
{
    if commands.len() < *room {
        commands.push(command)?;
        return Ok(());
    }
    match make_room(commands, *room) {
        Ok(more) => *room = more,
        Err(error) => {
            drop(command);
            return Err(error);
        }
    }
    commands.push(command)?;
    Ok(())
}

/// The commands of a script of the program `run`, or its first line that says none and that line's first fault. Lines that
/// are empty or begin with `#` are skipped, and count. Where memory runs out the line is told at which it did.
pub fn parse(alloc: Global, bytes: &[u8]) -> Result<Vec<Command>, Bad>
    ensures ok { IfOk result (λ commands. IsScriptTo run_reader bytes.now commands.items) }
    ensures count { IfOk result (λ commands. vec_len commands ≤ length bytes.now) }
    ensures bad { IfErr result (λ bad. RanOut run_reader bytes.now bad ⊎ IsFaultTo run_reader bytes.now bad) }
{
    parse_for::<Run>(alloc, bytes)
}

/// The same for any program, which may not have all its commands. A script that is none of the program's is refused as by `parse`; one
/// that has commands that the program doesn't have, at the first word of the first such line.
pub fn parse_for<C: Commands>(alloc: Global, bytes: &[u8]) -> Result<Vec<Command>, Bad>
    ensures ok { IfOk result (λ commands. IsScriptTo C.reader bytes.now commands.items) }
    ensures count { IfOk result (λ commands. vec_len commands ≤ length bytes.now) }
    ensures had { IfOk result (λ commands. All (λ command. C.reader.has (spelling command) ≡ true) commands.items) }
    ensures bad { IfErr result (λ bad. RanOut C.reader bytes.now bad ⊎ IsFaultTo C.reader bytes.now bad) }
{
    if bytes.len() > LONGEST {
        return Err(Bad {
            line: 0,
            why: Why::TooLong,
        });
    }
    let mut commands: Vec<Command> = Vec::new(alloc);
    let mut room = 0;
    let mut lacked = None;
    let mut rest = bytes;
    let mut line = 0u64;
    while !rest.is_empty() {
        let (text, after) = first_line(rest);
        rest = after;
        line += 1;
        if skips(text) {
            continue;
        }
        let first = commands.is_empty();
        let command = match read_line(alloc, C::program(), C::most_regions(), text, first) {
            Ok(command) => command,
            Err(why) => return Err(Bad { line, why }),
        };
        lacked = first_lacked::<C>(lacked, &command, text, line);
        if add(&mut commands, &mut room, command).is_err() {
            return Err(Bad {
                line,
                why: Why::Memory,
            });
        }
    }
    match lacked {
        Some(bad) => Err(bad),
        None => Ok(commands),
    }
}
