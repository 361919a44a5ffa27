//! What is read of a journal's catalog: a law, as a function that does nothing.
ghost use Rattle.hm_reads.specs.Reading.{ReadsTell};

use hm_catalog::laws::rows_tell;

/// Of the rows of a journal's catalog, a step of a procedure reads what the journal says that it reads.
pub fn reads_tell()
    ensures { ReadsTell }
{
    rows_tell();
}
