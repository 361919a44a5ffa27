//! Names: what texts name or why they name none, what is written of them, hints, ranges, and numbers of plain values. Each
//! line of standard input is a case, unless it begins with `#`; it is printed with what was answered. A text stands after
//! `=`, and may be empty.
#![tactic(auto)]

mod copies;
mod hints;
mod ranges;
mod texts;
mod values;

use copies::put_copy;
use hints::{put_front_hint, put_less, put_own_hint};
use hm_names::NameFault;
use ranges::put_cut;
use std::alloc::{AllocError, Global};
use std::io::{self, BufRead, BufReader};
use texts::{put_bytes, put_parsed, put_written};
use values::put_value;

// Puts what a verb answers to a text of a kind.
fn put_of_kind(
    alloc: Global,
    verb: &str,
    (kind, text): (&str, &str),
    out: &mut String,
) -> Result<(), NameFault> {
    match verb {
        "parse" => put_parsed(alloc, kind, text.as_bytes(), out),
        "write" => put_written(alloc, kind, text.as_bytes(), out),
        "of" => put_bytes(alloc, kind, text.as_bytes(), out),
        "copy" => put_copy(alloc, kind, text.as_bytes(), out),
        "hint" => put_own_hint(alloc, kind, text, out),
        "front-hint" => put_front_hint(kind, text, out),
        _ => put_value(kind, text, out),
    }
}

// Puts what a line is answered.
fn put_answer(alloc: Global, line: &str, out: &mut String) -> Result<(), NameFault> {
    let (verb, rest) = line.split_once(" ").unwrap_or((line, ""));
    match verb {
        "cut" => put_cut(alloc, rest, out),
        "less" => put_less(alloc, rest, out),
        _ => put_of_kind(alloc, verb, rest.split_once("=").unwrap_or((rest, "")), out),
    }
}

// Puts what a line is answered, or why its text is no name.
fn put_case(alloc: Global, line: &str, out: &mut String) -> Result<(), AllocError> {
    out.push_str(": ")?;
    if let Err(fault) = put_answer(alloc, line, out) {
        write!(out, "{fault}")?;
    }
    Ok(())
}

// Prints a line with what it is answered.
fn print_case(rt: &impl Print, alloc: Global, line: &str) -> io::Result<()> {
    let mut out = String::new(alloc);
    if !line.starts_with("#") {
        put_case(alloc, line, &mut out)?;
    }
    println!(rt; "{line}{out}")
}

fn main(rt: HostRuntime) -> io::Result<()> {
    let alloc = rt.alloc();
    for line in BufReader::new(alloc, rt.reader())?.lines(alloc) {
        let line = line?;
        print_case(&rt, alloc, &line)?;
    }
    Ok(())
}
