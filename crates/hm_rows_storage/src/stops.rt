//! What a stop of a disk may leave.
use hm_disk::Choice;

// Each value of the bytes that aren't synced, all that was written, and none of it.
pub(crate) fn choice_of(number: u16) -> Choice {
    match u8::try_from(number) {
        Ok(byte) => Choice::Fill(byte),
        Err(_) if number == 256 => Choice::AsRead,
        Err(_) => Choice::Synced,
    }
}

// How many frames are left of those that are synced, and of those that are there where a gate that isn't synced is open.
pub(crate) fn wanted(choice: Choice, synced: u64, open: u64) -> u64 {
    match choice {
        Choice::AsRead => open,
        Choice::Fill(b'+') => open,
        Choice::Fill(_) | Choice::Synced => synced,
    }
}
