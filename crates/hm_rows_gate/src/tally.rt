ghost use Rattle.std.specs.Prelude.{[], false};

use hm_gate::Kept;

/// Numbers in the order in which they came, and how many are wanted.
#[derive(Drop)]
pub struct Tally {
    pub numbers: Vec<u64>,
    pub wanted: u64,
}

impl Kept for Tally {
    type Item = u64;

    type Terms = u64;

    ghost shown = { λ t. record { items = t.numbers.items; outs = []; stopped = false; terms = t.wanted } };

    fn count(&self) -> u64 {
        self.numbers.len() as u64
    }
}
