//! What no clause says: that reading finds memory, and that std's readers and writers are met.
use hm_ports::{
    MemSink, MemSource, ReadWhy, Sink, Source, StdSink, StdSource, SureSink, SureSource, read_all,
    write_all,
};
use std::alloc::{AllocError, Global};
use std::test::Fail;

// Whether a source is read to its end, as these bytes.
fn reads_as<S: Source>(alloc: Global, source: &mut S, limit: usize, want: &[u8]) -> bool {
    match read_all(alloc, source, limit) {
        Ok(bytes) => bytes.as_slice() == want,
        Err(_) => false,
    }
}

// Why a source isn't read to its end.
fn why_not_read<S: Source>(alloc: Global, source: &mut S, limit: usize) -> Option<ReadWhy> {
    match read_all(alloc, source, limit) {
        Ok(_) => None,
        Err(why) => Some(why),
    }
}

// A source whose third call fails.
fn failing_source(alloc: Global) -> Result<MemSource, AllocError> {
    let bytes = b"one two".to_vec(alloc)?;
    Ok(MemSource::new(bytes, [2].to_vec(alloc)?))
}

fn sure_source(alloc: Global) -> Result<SureSource, AllocError> {
    Ok(SureSource::new(b"one two".to_vec(alloc)?))
}

// Whether a source is read to its end, and then fails.
fn fails_once_read(alloc: Global, source: MemSource) -> bool {
    let mut source = source;
    let is_read = reads_as(alloc, &mut source, 7, b"one two");
    let why = why_not_read(alloc, &mut source, 7);
    is_read && matches!(why, Some(ReadWhy::Failed))
}

// Whether a source of seven bytes is too long for six.
fn is_too_long(alloc: Global, source: SureSource) -> bool {
    let mut source = source;
    let why = why_not_read(alloc, &mut source, 6);
    matches!(why, Some(ReadWhy::TooLong))
}

#[test]
fn read_all_reads_to_the_end(rt: HostRuntime) -> Result<(), Fail> {
    let alloc = rt.alloc();
    assert!(rt; fails_once_read(alloc, failing_source(alloc)?));
    assert!(rt; is_too_long(alloc, sure_source(alloc)?));
    Ok(())
}

fn is_written<K: Sink>(sink: &mut K, bytes: &[u8]) -> bool {
    write_all(sink, bytes).is_ok()
}

// A sink of nine bytes whose second call fails.
fn failing_sink(alloc: Global) -> Result<MemSink, AllocError> {
    let room = [0; 9].to_vec(alloc)?;
    Ok(MemSink::new(room, [1].to_vec(alloc)?))
}

// Whether the second write fails, and the third, which fills the sink.
fn stops_in_mid_stream(sink: MemSink) -> bool {
    let mut sink = sink;
    let first = is_written(&mut sink, b"one ");
    let second = is_written(&mut sink, b"two ");
    let third = is_written(&mut sink, b"three four");
    first && !second && !third && sink.got() == b"one three".as_slice()
}

#[test]
fn write_all_stops_in_mid_stream(rt: HostRuntime) -> Result<(), Fail> {
    assert!(rt; stops_in_mid_stream(failing_sink(rt.alloc())?));
    assert!(rt; is_written(&mut SureSink::new(), b"anything"));
    Ok(())
}

fn a_reader_is_met(alloc: Global) -> bool {
    let mut source = StdSource::new(b"one two".as_slice());
    reads_as(alloc, &mut source, 7, b"one two")
}

fn a_writer_is_met(alloc: Global) -> bool {
    let mut bytes = Vec::new(alloc);
    let is_met = is_written(&mut StdSink::new(&mut bytes), b"one two");
    is_met && bytes.as_slice() == b"one two".as_slice()
}

// Whether a slice that is full takes nothing, without an error.
fn a_full_slice_is_met() -> bool {
    let mut room = [0; 3];
    let is_met = is_written(&mut StdSink::new(room.as_mut_slice()), b"one two");
    !is_met && room.as_slice() == b"one".as_slice()
}

#[test]
fn std_readers_and_writers_are_met(rt: HostRuntime) {
    assert!(rt; a_reader_is_met(rt.alloc()));
    assert!(rt; a_writer_is_met(rt.alloc()));
    assert!(rt; a_full_slice_is_met());
}
