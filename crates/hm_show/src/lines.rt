//! The lines of a table.
ghost use Rattle.std.specs.Prelude.{◌≡◌, ◌++◌, [], IfOk, OnOk, string_bytes};
ghost use Rattle.hm_show.specs.Lines.{AreLines};
ghost use Rattle.hm_show.specs.Tables.{head_text};

use std::alloc::{AllocError, Global};

// Lines, each with its newline, and how many there are.
#[derive(Drop)]
pub(crate) struct Lines {
    pub(crate) text: String,
    pub(crate) count: u64,
}

impl Lines {
    // No line.
    pub(crate) fn new(alloc: Global) -> Lines
        ensures { AreLines [] result }
    {
        Lines {
            text: String::new(alloc),
            count: 0,
        }
    }

    // The table of this name that has these lines, where so many entries were recorded.
    pub(crate) fn into_table(
        self,
        alloc: Global,
        name: &str,
        entries: u64,
    ) -> Result<Vec<u8>, AllocError>
        ensures { IfOk result (λ table. table.items ≡ head_text name.now entries self.count ++ string_bytes self.text) }
    {
        let Lines { text, count } = self;
        let mut table = format!(in alloc; "{name} at {entries}: {count}\n")?;
        table.push_str(text.as_str())?;
        Ok(table.into_bytes())
    }
}
