ghost use Rattle.std.specs.Prelude.{◌≡◌, length};
ghost use Rattle.hm_gate.specs.Whole.{Whole};

/// A value that stores a list of items which only grows.
pub trait Kept {
    type Item;

    /// What no stay inside the gate changes.
    type Terms;

    // The list, what is handed out and has to come back, whether it is stopped, and the terms.
    ghost shown: { Self → Whole Self.Item Self.Terms };

    /// How many items the list has.
    fn count(&self) -> u64
        ensures { result ≡ length (shown self.now).items };
}
