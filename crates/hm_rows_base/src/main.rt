//! Bases by the frames that spell them: whether they are whole, or which part is wrong; and ranges, whether they fit. Each line
//! of standard input is a case, unless it begins with `#`, or with `let` and gives a name to bytes; it is printed with what was
//! answered.
#![tactic(auto)]

mod bases;
mod frames;
mod ranges;
mod roots;
mod wholes;

use bases::put_base;
use frames::{Named, frames, name};
use hm_names::NameFault;
use ranges::put_ranges;
use std::alloc::{AllocError, Global};
use std::io::{self, BufRead, BufReader};

// Puts what a case is answered: of a base its label alone stands before it.
fn put_case(
    alloc: Global,
    named: &[Named],
    (verb, line): (&str, &str),
    out: &mut String,
) -> Result<(), NameFault> {
    if verb == "ranges" {
        write!(out, "{line}: ")?;
        return put_ranges(alloc, line, out);
    }
    let (label, words) = line.split_once(":").unwrap_or((line, ""));
    write!(out, "{label}: ")?;
    let frames = frames(alloc, named, words)?;
    put_base(alloc, &frames, out)?;
    Ok(())
}

// Puts a case and what it is answered, or why a name in it is none.
fn put_line(
    alloc: Global,
    named: &[Named],
    line: &str,
    out: &mut String,
) -> Result<(), AllocError> {
    let (verb, rest) = line.split_once(" ").unwrap_or((line, ""));
    write!(out, "{verb} ")?;
    match put_case(alloc, named, (verb, rest), out) {
        Ok(()) => Ok(()),
        Err(fault) => write!(out, "{fault}"),
    }
}

// Prints a case with what it is answered.
fn print_case(rt: &impl Print, alloc: Global, named: &[Named], line: &str) -> io::Result<()> {
    let mut out = String::new(alloc);
    if line.starts_with("#") {
        out.push_str(line)?;
    } else {
        put_line(alloc, named, line, &mut out)?;
    }
    println!(rt; "{out}")
}

// Gives a name to bytes, or prints why they are none.
fn take_name(rt: &impl Print, alloc: Global, named: &mut Vec<Named>, line: &str) -> io::Result<()> {
    match name(alloc, named, line) {
        Ok(()) => Ok(()),
        Err(fault) => println!(rt; "let {line}: {fault}"),
    }
}

fn main(rt: HostRuntime) -> io::Result<()> {
    let alloc = rt.alloc();
    let mut named = Vec::new(alloc);
    for line in BufReader::new(alloc, rt.reader())?.lines(alloc) {
        let line = line?;
        match line.strip_prefix("let ") {
            Some(rest) => take_name(&rt, alloc, &mut named, rest)?,
            None => print_case(&rt, alloc, &named, &line)?,
        }
    }
    Ok(())
}
