//! Entries: the bytes that spell them, and the first fault of bytes that spell none.
ghost use Rattle.std.specs.Prelude.{IfOk};
ghost use Rattle.hm_entry.specs.Fits.{EntryIsSpelled};

use hm_data::{Answer, Entry, Request, StepOut};
use hm_entry::{decode, encode_into, length};
use hm_names::{List, NameFault, Nonce, Ns, Pid};
use std::alloc::{AllocError, Global};
use std::test::Fail;

// The namespace `shop`, asked for with the nonce 1:1, and one byte more.
const SUBMIT: [u8; 25] = [
    1, 1, 0, 0, 0, 0, 0, 0, 0, 1, 0, 0, 0, 0, 0, 0, 0, 1, 4, 0, 0x73, 0x68, 0x6F, 0x70, 0,
];

// A merge of the regions a:b,1, a:b,2 and a:b,3 with the nonce 1:1.
const MERGE: [u8; 62] = [
    1, 1, 0, 0, 0, 0, 0, 0, 0, 1, 0, 0, 0, 0, 0, 0, 0, 9, 3, 0, 1, 0, 97, 1, 0, 98, 1, 0, 0, 0, 0,
    0, 0, 0, 1, 0, 97, 1, 0, 98, 2, 0, 0, 0, 0, 0, 0, 0, 1, 0, 97, 1, 0, 98, 3, 0, 0, 0, 0, 0, 0,
    0,
];

// A step of procedure 1 that goes on at row 1 and does nothing else.
const PLAIN_STEP: [u8; 20] = [2, 1, 0, 0, 0, 0, 0, 0, 0, 0, 0, 1, 0, 0, 0, 0, 0, 0, 0, 0];

// A step of procedure 7 with an edit, a child, a verb and a place.
const STEP: [u8; 47] = [
    2, 7, 0, 0, 0, 0, 0, 0, 0, 0, 0, 1, 1, 0, 0, 1, 0, 97, 0, 1, 0, 1, 0, 26, 7, 0, 0, 0, 0, 0, 0,
    0, 1, 3, 7, 0, 0, 0, 0, 0, 0, 0, 1, 0, 0, 0, 0,
];

// The part of a base that a root was a transit of the region a,b,3 that no request made, and failed.
const ROOT: [u8; 46] = [
    8, 5, 9, 0, 0, 0, 0, 0, 0, 0, 0, 0, 0, 0, 0, 0, 0, 0, 0, 0, 0, 0, 0, 0, 0, 0, 255, 1, 0, 97, 1,
    0, 98, 3, 0, 0, 0, 0, 0, 0, 0, 0, 0, 1, 4, 0,
];

fn submission(alloc: Global) -> Result<Entry, NameFault>
    ensures { IfOk result (λ e. EntryIsSpelled e) }
{
    let nonce = Nonce {
        group: 1,
        number: 1,
    };
    let ns = Ns::parse(alloc, b"shop")?;
    Ok(Entry::Submit {
        nonce,
        request: Request::CreateNamespace { ns },
    })
}

fn plain_step(alloc: Global) -> Entry
    ensures { EntryIsSpelled result }
{
    Entry::Step {
        pid: Pid(1),
        pick: None,
        out: StepOut {
            answer: Answer::More(1),
            edits: List::of(Vec::new(alloc)),
            children: List::of(Vec::new(alloc)),
            call: None,
            place: None,
            followers: List::of(Vec::new(alloc)),
        },
    }
}

// Whether these bytes are written of an entry.
pub(crate) fn is_spelled(alloc: Global, entry: &Entry, bytes: &[u8]) -> Result<bool, AllocError>
    requires { EntryIsSpelled entry.now }
{
    let length = length(entry);
    if length > 65_536 {
        return Ok(false);
    }
    let mut out = Vec::with_capacity(alloc, length as usize)?;
    encode_into(entry, &mut out);
    Ok(out.as_slice() == bytes)
}

// The same of an entry that is let go.
fn is_written(alloc: Global, entry: Entry, bytes: &[u8]) -> Result<bool, AllocError>
    requires { EntryIsSpelled entry }
{
    let is_spelled = is_spelled(alloc, &entry, bytes);
    drop(entry);
    is_spelled
}

fn submission_is_written(alloc: Global) -> Result<bool, NameFault> {
    let entry = submission(alloc)?;
    Ok(is_written(alloc, entry, &SUBMIT[..24])?)
}

#[test]
fn encode_into_writes_the_spelling(rt: HostRuntime) -> Result<(), Fail> {
    assert!(rt; submission_is_written(rt.alloc())?);
    let step = plain_step(rt.alloc());
    assert!(rt; is_written(rt.alloc(), step, &PLAIN_STEP)?);
    Ok(())
}

// What bytes are read as: an entry, or why they are none.
fn read(alloc: Global, bytes: &[u8]) -> Result<String, AllocError> {
    match decode(alloc, bytes) {
        Ok(entry) => {
            drop(entry);
            "an entry".to_string(alloc)
        }
        Err(fault) => fault.to_string(alloc),
    }
}

// Bytes, how many of them are read, and as what.
const READINGS: [(&[u8], usize, &str); 18] = [
    (&SUBMIT, 24, "an entry"),
    (&STEP, 47, "an entry"),
    (&SUBMIT, 23, "the field at 18 runs past the end"),
    (&SUBMIT, 25, "bytes follow at 24"),
    (&MERGE, 62, "an entry"),
    (&MERGE, 61, "the field at 54 runs past the end"),
    (&MERGE, 48, "the field at 48 runs past the end"),
    (&ROOT, 45, "an entry"),
    (&ROOT, 46, "bytes follow at 45"),
    (&[8, 6, 7, 0, 0, 0, 0, 0, 0, 0], 10, "an entry"),
    (&ROOT, 27, "the field at 27 runs past the end"),
    (&ROOT, 9, "the field at 2 runs past the end"),
    (&[8], 1, "the field at 1 runs past the end"),
    (&[8, 7], 2, "no such value at 1"),
    (&[9, 0, 0], 3, "an entry"),
    (&[9, 1], 2, "the field at 1 runs past the end"),
    (&[9, 1, 0, 1, 1, 0, 46], 7, "no such value at 6"),
    (&[0xFF], 1, "no such value at 0"),
];

// Whether the first of some bytes are read so.
fn reads_as(alloc: Global, bytes: &[u8], size: usize, want: &str) -> Result<bool, AllocError> {
    let Some(front) = bytes.get(..size) else {
        return Ok(false);
    };
    let read = read(alloc, front)?;
    Ok(read.as_str() == want)
}

#[test]
fn decode_gives_the_entry_or_the_first_fault(rt: HostRuntime) -> Result<(), Fail> {
    for (bytes, size, want) in READINGS {
        assert!(rt;
            reads_as(rt.alloc(), bytes, size, want)?,
            "{size} of {bytes:?}"
        );
    }
    Ok(())
}
