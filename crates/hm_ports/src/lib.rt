//! Where bytes come from and where they go, with a count of faults that never falls.
#![tactic(auto)]

mod counts;
mod mem_sink;
mod mem_source;
mod sink;
mod source;
mod std_ends;
mod sure;

pub use counts::{Failed, next_call_fails, raise};
pub use mem_sink::MemSink;
pub use mem_source::MemSource;
pub use sink::{Sink, write_all};
pub use source::{ReadWhy, Source, read_all};
pub use std_ends::{StdSink, StdSource};
pub use sure::{SureSink, SureSource};
