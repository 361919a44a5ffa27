//! Logs over any disk.
use hm_disk::Disk;
use hm_log::{Frames, Log, OpenWhy};
use hm_ports::Failed;
use std::alloc::Global;

pub(crate) fn open<D: Disk + Drop>(alloc: Global, disk: D) -> Result<(Log<D>, Frames), OpenWhy> {
    match Log::open(alloc, disk) {
        Ok(opened) => Ok(opened),
        Err((disk, why)) => {
            drop(disk);
            Err(why)
        }
    }
}

// Adds a frame, where the log takes it.
pub(crate) fn append<D: Disk>(log: &mut Log<D>, frame: &[u8]) -> Result<u64, Failed> {
    if log.stalled() || log.bytes() > 1 << 40 || frame.is_empty() || frame.len() > 65_536 {
        return Err(Failed);
    }
    log.append(frame)
}
