//! Plays tables of runs over memory, and says what isn't as their rows want it. The program's words are the tables' files. For
//! each part of a table it prints how many rows and runs that had, and then, for each run that isn't as it should be, the line at
//! which its row begins and the first thing that is wrong.
//!
//! # A table
//!
//! A table is text in blocks, with empty lines between them (`hm_play`). A block with a line `part HEADING` is the head of a part;
//! each other block is a row. A line begins with a word. Where a row has no line of a word, the lines of its head with that word
//! hold. A line that begins with `#` is for readers.
//!
//! A row is one script and one text, and as many runs as there are ways to take one of each: its words, its logs, the calls that
//! fail, and the stops.
//!
//! What a run is given:
//!
//! | Line | What it says | Without it |
//! |---|---|---|
//! | `words W..` | the words of the run, of which `''` is the empty one; more such lines: each in turn | `run a.log` |
//! | `< TEXT` | a line of the script; `%` and two digits are a byte, and a `%` at the end takes the newline away | no line |
//! | `times N` | the next line `<` stands N times, with its number from 0 on in place of each `#` | once |
//! | `over BYTES` | the log; more such lines: each in turn; `over left`: each log that the row above has left | no bytes |
//! | `disk N..`, `source N..`, `sink N..` | the number of the device's call that fails; more numbers: each in turn | none fails |
//! | `within SOFT HARD` | the marks of the journal | the program's |
//! | `steps N` | how many steps each handler of tables answers before its memory runs out | all |
//!
//! What it is to do:
//!
//! | Line | What it says | Without it |
//! |---|---|---|
//! | `> TEXT` | the next line that it says; `> ...`: whatever it says from here on | no line |
//! | `\| TEXT` | another line that is right too, in place of the one above | |
//! | `ends N` | its exit status | 0 |
//! | `leaves BYTES` | what the disk then reads; `leaves same`: what it read before | anything |
//! | `marks N..` | how long the journal was at each answer; more such lines: one of them | anything |
//! | `runs N..` | how often each registry was run | anything |
//! | `calls N` | how many calls of its disk it makes | anything |
//!
//! What is done after it:
//!
//! | Line | What it says |
//! |---|---|
//! | `stop WORD..` | a stop of the machine leaves what was synced (`synced`), what is read (`read`), or that with this byte for each that wasn't synced (`2B`); more words: each in turn |
//! | `keep NAME` | what the last run of the row has left has this name from here on |
//!
//! A row with a line `records N` is no run: a journal is opened over the log, within the marks, and an entry is recorded N times. It
//! says how long the journal is before and after each, and what is answered.
//!
//! BYTES are words, one after another: `"text"`, digits in pairs, or a name. A `+` or a `-` before a word makes it a frame of a log
//! after an open or a closed gate. A line `bytes NAME BYTES` in the head of a part gives a name, for that table and those after it.
//! Numbers may be a range, as `8..11`.
#![tactic(auto)]

mod cases;
mod hands;
mod journal;
mod rows;
mod runs;
mod wants;

use hm_play::play_tables;
use rows::Runs;
use std::io;

fn main(rt: HostRuntime) -> io::Result<()> {
    let mut runs = Runs::new(rt.alloc());
    play_tables(&rt, &mut runs)
}
