//! An entry that is ready to be recorded.
ghost use Rattle.std.specs.Prelude.{◌≡◌, Some, None};

use hm_data::Entry;
use hm_disk::Anchor;

/// An entry, and its frame where it will be recorded unless the log fails.
#[derive(Drop)]
pub(crate) struct Next {
    // For proofs alone.
    entry: Anchor<Entry>,
    frame: Option<Vec<u8>>,
}

impl Next {
    pub(crate) fn framed(entry: &Entry, frame: Vec<u8>) -> Next
        ensures entry { result.entry.disk ≡ entry.now }
        ensures frame { result.frame ≡ Some frame }
    {
        Next {
            entry: Anchor::at(entry),
            frame: Some(frame),
        }
    }

    // An entry that will be refused needs no frame.
    pub(crate) fn refused(entry: &Entry) -> Next
        ensures entry { result.entry.disk ≡ entry.now }
        ensures frame { result.frame ≡ None }
    {
        Next {
            entry: Anchor::at(entry),
            frame: None,
        }
    }

    pub(crate) fn into_frame(self) -> Option<Vec<u8>>
        ensures { result ≡ self.frame }
    {
        let Next { entry: _, frame } = self;
        frame
    }
}
