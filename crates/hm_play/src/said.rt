//! What is said, beside what a row wants.
use crate::rows::{Row, behind};
use std::str::Split;

/// A line that isn't what is wanted there. No line stands after the last, and none is wanted there.
#[derive(Clone, Copy, Debug)]
pub struct Wrong<'a> {
    pub said: Option<&'a str>,
    pub wanted: Option<&'a str>,
}

// A line that is said where another is wanted.
fn differs<'a>(said: Option<&'a str>, wanted: &'a str) -> Option<Wrong<'a>> {
    if said == Some(wanted) {
        return None;
    }
    Some(Wrong {
        said,
        wanted: Some(wanted),
    })
}

// What is wrong where no more lines are wanted: a line that is there, or that the last one doesn't end.
fn goes_on<'a>(pieces: &mut Split<'a, char>) -> Option<Wrong<'a>> {
    let said = match pieces.next() {
        Some("") => pieces.next()?,
        Some(said) => said,
        None => return differs(None, ""),
    };
    Some(Wrong {
        said: Some(said),
        wanted: None,
    })
}

/// The first line of a text that isn't what a row wants by its lines `>`. A line `|` is right too, in place of the one above, and
/// `> ...` wants whatever comes. Each line ends.
pub fn first_wrong<'a>(row: &Row<'a>, text: &'a str) -> Option<Wrong<'a>> {
    let mut pieces = text.split('\n');
    let mut said = None;
    let mut wrong = None;
    for line in row.lines(">") {
        if let Some(wanted) = behind(line, ">") {
            if wrong.is_some() || wanted == "..." {
                return wrong;
            }
            said = pieces.next();
            wrong = differs(said, wanted);
        } else if let Some(wanted) = behind(line, "|") {
            if said == Some(wanted) {
                wrong = None;
            }
        }
    }
    if wrong.is_some() {
        return wrong;
    }
    goes_on(&mut pieces)
}
