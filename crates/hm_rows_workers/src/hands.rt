//! What serves, by one sheet, and where two tasks meet.
ghost use Rattle.std.specs.Prelude.{◌≡◌, [], ◌∷◌, IfOk, length};
ghost use Rattle.hm_rows_workers.specs.Tasks.{in_each};
ghost use Rattle.hm_sheet.specs.Own.{own_sheet as own};

use crate::toy::KIND;
use hm_data::{StepIn, StepOut};
use hm_names::List;
use hm_sheet::{Valid, answer, own_sheet};
use hm_workers::Serves;
use std::alloc::{AllocError, Global};
use std::sync::atomic::AtomicU64;
use std::sync::atomic::Ordering::SeqCst;
use std::thread;

// How often a task looks for another one.
const TURNS: u32 = 16_777_216;

/// Where tasks meet.
#[derive(Drop)]
pub struct Meeting {
    begun: AtomicU64,
    met: AtomicU64,
}

impl Meeting {
    pub fn new() -> Meeting {
        Meeting {
            begun: AtomicU64::new(0),
            met: AtomicU64::new(0),
        }
    }

    /// How many tasks saw that another one had begun.
    pub fn met(&self) -> u64 {
        self.met.load(SeqCst)
    }

    // Tells that a task has begun, and waits for another one to begin, some turns at most.
    fn join(&self) {
        self.begun.fetch_add(1, SeqCst);
        for _ in 0..TURNS {
            if self.begun.load(SeqCst) >= 2 {
                self.met.fetch_add(1, SeqCst);
                return;
            }
            thread::yield_now();
        }
    }
}

/// Serves by one sheet, and counts. Where there is a meeting, each task goes there.
#[derive(Drop)]
pub struct Hands<'a> {
    sheets: List<Valid>,
    runs: u64,
    meeting: Option<&'a Meeting>,
}

impl<'a> Hands<'a> {
    pub fn new(alloc: Global, meeting: Option<&'a Meeting>) -> Result<Hands<'a>, AllocError>
        ensures { IfOk result (λ hands. hands.sheets ≡ own 26 ∷ []) }
    {
        let mut sheets = Vec::new(alloc);
        sheets.push(own_sheet(alloc, KIND)?)?;
        Ok(Hands {
            sheets: List::of(sheets),
            runs: 0,
            meeting,
        })
    }

    /// How often it served.
    pub fn runs(&self) -> u64 {
        self.runs
    }
}

impl<'a> Serves for Hands<'a> {
    ghost editions = { λ hands. in_each hands.sheets };

    ghost runs = { λ hands. hands.runs };

    fn serve(&mut self, alloc: Global, at: &StepIn) -> Result<StepOut, AllocError> {
        if let Some(meeting) = self.meeting {
            meeting.join();
        }
        let out = answer(alloc, self.sheets.as_slice(), at)?;
        self.runs = self.runs.saturating_add(1);
        Ok(out)
    }
}
