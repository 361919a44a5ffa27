//! What a journal begins with.
ghost use Rattle.std.specs.Prelude.{◌≡◌, max};

// How many entries of a journal are parts of a base, and how many that base stands for.
#[derive(Clone, Copy)]
pub(crate) struct Origin {
    pub(crate) parts: u64,
    pub(crate) based: u64,
}

impl Origin {
    // There is no base.
    pub(crate) fn none() -> Origin
        ensures { result ≡ record { parts = 0; based = 0 } }
    {
        Origin { parts: 0, based: 0 }
    }

    // How many entries a journal has where it has just begun: its start, or the parts of its base.
    pub(crate) fn begun(&self) -> u64
        ensures { result ≡ max self.now.parts 1 }
    {
        self.parts.max(1)
    }
}
