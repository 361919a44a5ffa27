//! How a journal was opened.
ghost use Rattle.std.specs.Prelude.{◌≡◌};

use hm_disk::{Anchor, Disk};
use std::marker::Model;

/// A disk as it was when a journal was opened on it, and how many entries it had, the parts of a base among them.
#[derive(Drop)]
pub struct Opening<D: Disk> {
    pub(crate) disk: Anchor<D>,
    pub(crate) count: u64,
}

impl<D: Disk> Model for Opening<D> {
    ghost use Rattle.hm_journal.specs.Opened.{Opened};

    ghost Value = { Opened D };

    ghost view = { λ a. record { disk = a.disk.disk; count = a.count } };
}

impl<D: Disk> Opening<D> {
    pub(crate) fn new(disk: Anchor<D>, count: u64) -> Opening<D>
        ensures { result ≡ record { disk = disk.disk; count = count } }
    {
        Opening { disk, count }
    }
}
